//! Reading a configuration.
ghost use Rattle.std.specs.Prelude.{◌≡◌, Some, IfOk, IfErr, map};
ghost use Rattle.toml.specs.View.{view, table_view};
ghost use Rattle.vtl_config.specs.Keys.{top_keys};
ghost use Rattle.vtl_config.specs.Values.{value_at, kind_of_key, entries};
ghost use Rattle.vtl_config.specs.Configs.{EntriesAt, IsConfig, Says, RefusesText};
ghost use Rattle.vtl_config.specs.Inner.Found.{IsNoList, TableRefused};

use crate::cartridge_entries::read_cartridges;
use crate::drive_entries::read_drives;
use crate::entries::Config;
use crate::keys::{Key, has_only};
use crate::rules::{ConfigError, Place, Rule};
use crate::values::value_at;
use std::alloc::Global;
use toml::{Table, Value};

const KEYS: [Key; 2] = [Key::Cartridge, Key::Drive];

// The refusal of a rule that is broken outside all entries.
fn refused(rule: Rule) -> ConfigError
    ensures { result ≡ ConfigError.Refused Place.Top rule }
{
    ConfigError::Refused {
        place: Place::Top,
        rule,
    }
}

// The entries of a list; none where the list is missing.
fn entries_at<'a>(table: &'a Table, list: Key) -> Result<&'a [Value], ConfigError>
    requires { kind_of_key list ≡ entries }
    ensures ok { IfOk result (λ items. EntriesAt list (table_view table.now) (map view items.now)) }
    ensures err { IfErr result (IsNoList list (table_view table.now)) }
{
    match value_at(table, list) {
        Some(value) => match value.as_array() {
            Some(items) => Ok(items.as_slice()),
            None => Err(refused(Rule::OtherKind(list))),
        },
        None => Ok(&[]),
    }
}

fn read_table(alloc: Global, table: &Table) -> Result<Config, ConfigError>
    ensures ok { IfOk result (IsConfig (table_view table.now)) }
    ensures err { IfErr result (TableRefused (table_view table.now)) }
{
    if !has_only(table, &KEYS) {
        return Err(refused(Rule::OtherKey));
    }
    let drives = match entries_at(table, Key::Drive) {
        Ok(entries) => entries,
        Err(error) => return Err(error),
    };
    let cartridges = match entries_at(table, Key::Cartridge) {
        Ok(entries) => entries,
        Err(error) => return Err(error),
    };
    let drives = match read_drives(alloc, drives) {
        Ok(drives) => drives,
        Err(error) => return Err(error),
    };
    let cartridges = match read_cartridges(alloc, drives.as_slice(), cartridges) {
        Ok(cartridges) => cartridges,
        Err(error) => return Err(error),
    };
    Ok(Config { cartridges, drives })
}

/// Reads a configuration from `text`, the bytes of a TOML document. If the text breaks a rule, `Refused` is returned,
/// with the rule and the place. Drives are read before cartridges; if several rules are broken, the first that is met
/// is reported. If memory runs out, `NoMemory` is returned.
pub fn read_config(alloc: Global, text: &[u8]) -> Result<Config, ConfigError>
    ensures ok { IfOk result (Says text.now) }
    ensures err { IfErr result (RefusesText text.now) }
{
    let Ok(text) = std::str::from_utf8(text) else {
        return Err(refused(Rule::NotUtf8));
    };
    match toml::table_from_str(alloc, text) {
        Ok(table) => read_table(alloc, &table),
        Err(error) if error.is_memory() => Err(ConfigError::NoMemory),
        Err(_) => Err(refused(Rule::NotToml)),
    }
}
