//! What stands in a text where it breaks a rule.
ghost use Rattle.std.specs.Prelude.{◌≡◌, IfOk, IfSome};
ghost use Rattle.toml.specs.Errors.{IsWithin};
ghost use Rattle.toml.specs.View.{table_view};
ghost use Rattle.config_reasons.specs.Reasons.{IsEntryAt, IsOtherKey, IsFoundIn, IsOtherIn, IsReasonIn, outside, IsNoText, IsStoppedAt, IsNoTable, IsNoDocument, IsTableReason, IsConfigReason};

use crate::doubles::double_of;
use crate::entries::{table_at, text_of, value_at, value_for};
use crate::other_keys::other_key_at;
use crate::reasons::{ConfigReason, Entry, Found};
use crate::seen::Seen;
use crate::spots::spot_at;
use std::alloc::{AllocError, Global};
use toml::Table;
use toml::de::Error;
use vtl_config::{Key, Place, Rule};

// The entry at a place, with its barcode.
fn entry_at(alloc: Global, root: &Table, place: Place) -> Result<Entry, AllocError>
    ensures { IfOk result (IsEntryAt place (table_view root.now)) }
{
    let barcode = match text_of(root, place, Key::Barcode) {
        Some(text) => Some(String::from_str(alloc, text)?),
        None => None,
    };
    Ok(Entry { place, barcode })
}

fn key_found(alloc: Global, table: &Table, place: Place) -> Option<Found>
    ensures { IfSome result (IsOtherKey place (table_view table.now)) }
{
    let name = other_key_at(table, place)?;
    match String::from_str(alloc, name) {
        Ok(copy) => Some(Found::OtherKey(copy)),
        Err(_) => None,
    }
}

// What stands at the place and breaks the rule; None where nothing does, or memory runs out.
fn found_in(alloc: Global, root: &Table, place: Place, rule: Rule) -> Option<Found>
    ensures { IfSome result (IsFoundIn place rule (table_view root.now)) }
{
    match rule {
        Rule::OtherKey => key_found(alloc, table_at(root, place)?, place),
        Rule::Missing(key) => match value_at(table_at(root, place)?, key) {
            Some(_) => None,
            None => Some(Found::Nothing),
        },
        _ => match Seen::of(alloc, value_for(root, place, rule)?) {
            Ok(seen) => Some(Found::Value(seen)),
            Err(_) => None,
        },
    }
}

// The earlier entry that has the value of the rule's key, where the rule says that no value may occur twice. None for
// any other rule, where there is no such entry, or where memory runs out.
fn other_in(alloc: Global, root: &Table, place: Place, rule: Rule) -> Option<Entry>
    ensures { IfSome result (IsOtherIn place rule (table_view root.now)) }
{
    match rule {
        Rule::Double(key) => {
            match entry_at(alloc, root, double_of(alloc, root, place, key)?) {
                Ok(entry) => Some(entry),
                Err(_) => None,
            }
        }
        _ => None,
    }
}

// Why the table of a text breaks a rule at a place; None where memory runs out, or where nothing stands at the place
// that may break the rule.
fn reason_in(alloc: Global, root: &Table, place: Place, rule: Rule) -> Option<ConfigReason>
    ensures { IfSome result (IsReasonIn place rule (table_view root.now)) }
{
    let found = found_in(alloc, root, place, rule)?;
    let other = other_in(alloc, root, place, rule);
    match entry_at(alloc, root, place) {
        Ok(entry) => Some(ConfigReason {
            rule,
            entry,
            found,
            other,
        }),
        Err(_) => None,
    }
}

// The reason for a rule that is broken outside all entries.
fn outside(rule: Rule, found: Found) -> ConfigReason
    ensures { result ≡ outside rule found }
{
    ConfigReason {
        rule,
        entry: Entry {
            place: Place::Top,
            barcode: None,
        },
        found,
        other: None,
    }
}

fn no_text(text: &[u8]) -> Option<Found>
    ensures { IfSome result (IsNoText text.now) }
{
    match std::str::from_utf8(text) {
        Ok(_) => None,
        Err(error) => Some(Found::NoText(spot_at(text, error.valid_up_to()))),
    }
}

// What the parser refused, and where. None where memory runs out, or where the error has no place.
fn refused_at(alloc: Global, text: &str, error: &Error) -> Option<Found>
    requires { IsWithin text.now error.now }
    ensures { IfSome result (IsStoppedAt text.now error.now) }
{
    let span = error.span()?;
    let spot = spot_at(text.as_bytes(), span.start);
    match String::from_str(alloc, error.message()) {
        Ok(message) => Some(Found::NoDocument { spot, message }),
        Err(_) => None,
    }
}

fn no_table(alloc: Global, text: &str) -> Option<Found>
    ensures { IfSome result (IsNoTable text.now) }
{
    let error = match toml::table_from_str(alloc, text) {
        Ok(_) => return None,
        Err(error) => error,
    };
    refused_at(alloc, text, &error)
}

fn no_document(alloc: Global, text: &[u8]) -> Option<Found>
    ensures { IfSome result (IsNoDocument text.now) }
{
    match std::str::from_utf8(text) {
        Ok(text) => no_table(alloc, text),
        Err(_) => None,
    }
}

fn reason_by(alloc: Global, text: &str, place: Place, rule: Rule) -> Option<ConfigReason>
    ensures { IfSome result (IsTableReason text.now place rule) }
{
    let root = match toml::table_from_str(alloc, text) {
        Ok(root) => root,
        Err(_) => return None,
    };
    reason_in(alloc, &root, place, rule)
}

/// Returns why `text` is not a configuration. `place` and `rule` are those that `read_config` reported for this text;
/// whether the rule is broken is not checked again. Returns None if memory runs out, or if nothing is found at the
/// place that could break the rule.
pub fn reason_of(alloc: Global, text: &[u8], place: Place, rule: Rule) -> Option<ConfigReason>
    ensures { IfSome result (IsConfigReason text.now place rule) }
{
    match rule {
        Rule::NotUtf8 => Some(outside(rule, no_text(text)?)),
        Rule::NotToml => Some(outside(rule, no_document(alloc, text)?)),
        _ => match std::str::from_utf8(text) {
            Ok(text) => reason_by(alloc, text, place, rule),
            Err(_) => None,
        },
    }
}
