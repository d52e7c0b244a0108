//! The values of an entry's keys.
ghost use Rattle.std.specs.Prelude.{◌≡◌, ◌≤◌, ◌<◌, pos, Some, None, IfOk, IfErr, IsTrue, MatchOption, option_map, length};
ghost use Rattle.toml.specs.Data.{string};
ghost use Rattle.toml.specs.View.{view, table_view, array_view};
ghost use Rattle.vtl_config.specs.Values.{value_at, Misfits, whole, natural_of, kind_of_key, text, number, IsDriveNumber, IsAddress};
ghost use Rattle.vtl_config.specs.Entries.{address_of};
ghost use Rattle.vtl_base.specs.Barcode.{IsBarcode};

use crate::entries::Address;
use crate::keys::Key;
use crate::rules::Rule;
use toml::{Table, Value};
use vtl_base::{Barcode, DriveNo, SlotNo};

// The value of this key in a table; None where the table does not have the key.
pub(crate) fn value_at<'a>(table: &'a Table, key: Key) -> Option<&'a Value>
    ensures { option_map (λ value. view value.now) result ≡ value_at key (table_view table.now) }
{
    table.get(key.name())
}

// The text at this key, or the rule that the key or its value breaks.
pub(crate) fn text_at<'a>(table: &'a Table, key: Key) -> Result<&'a str, Rule>
    requires { kind_of_key key ≡ text }
    ensures ok { IfOk result (λ found. value_at key (table_view table.now) ≡ Some (string found.now)) }
    ensures err { IfErr result (Misfits key (value_at key (table_view table.now))) }
{
    match value_at(table, key) {
        Some(value) => match value.as_str() {
            Some(found) => Ok(found),
            None => Err(Rule::OtherKind(key)),
        },
        None => Err(Rule::Missing(key)),
    }
}

fn natural_of(number: i64) -> Option<u64>
    ensures { result ≡ natural_of number }
{
    u64::try_from(number).ok()
}

// The whole number, from 0 on, at this key, or the rule that the key or its value breaks.
fn number_at(table: &Table, key: Key) -> Result<u64, Rule>
    requires { kind_of_key key ≡ number }
    ensures ok { IfOk result (λ found. value_at key (table_view table.now) ≡ Some (whole found)) }
    ensures err { IfErr result (Misfits key (value_at key (table_view table.now))) }
{
    match value_at(table, key) {
        Some(value) => match value.as_integer() {
            Some(found) => match natural_of(found) {
                Some(found) => Ok(found),
                None => Err(Rule::OutOfRange(key)),
            },
            None => Err(Rule::OtherKind(key)),
        },
        None => Err(Rule::Missing(key)),
    }
}

// The barcode of a cartridge, or the rule that its key or its value breaks.
pub(crate) fn barcode_at(table: &Table) -> Result<Barcode, Rule>
    ensures ok { IfOk result (λ found. value_at Key.Barcode (table_view table.now) ≡ Some (string found)) }
    ensures range { IfOk result IsBarcode }
    ensures err { IfErr result (Misfits Key.Barcode (value_at Key.Barcode (table_view table.now))) }
{
    let text = text_at(table, Key::Barcode)?;
    match Barcode::parse(text.as_bytes()) {
        Ok(barcode) => Ok(barcode),
        Err(_) => Err(Rule::OutOfRange(Key::Barcode)),
    }
}

// The number of a drive, or the rule that its key or its value breaks.
pub(crate) fn drive_number_at(table: &Table) -> Result<DriveNo, Rule>
    ensures ok { IfOk result (λ found. value_at Key.Number (table_view table.now) ≡ Some (whole found)) }
    ensures range { IfOk result IsDriveNumber }
    ensures err { IfErr result (Misfits Key.Number (value_at Key.Number (table_view table.now))) }
{
    let number = number_at(table, Key::Number)?;
    match drive_of(number) {
        Some(drive) => Ok(drive),
        None => Err(Rule::OutOfRange(Key::Number)),
    }
}

fn drive_of(number: u64) -> Option<DriveNo>
    ensures { MatchOption result (¬ IsDriveNumber number) (λ drive. drive ≡ number) }
{
    match u8::try_from(number) {
        Ok(number) => DriveNo::new(number),
        Err(_) => None,
    }
}

fn address_of(number: u64) -> Option<Address>
    ensures { MatchOption result (¬ IsAddress number) (λ address. address_of address ≡ number) }
{
    if let Some(drive) = drive_of(number) {
        return Some(Address::Drive(drive));
    }
    let number = u32::try_from(number).ok()?;
    SlotNo::new(number).map(Address::Slot)
}

// The home of a cartridge, or the rule that its key or its value breaks.
pub(crate) fn home_at(table: &Table) -> Result<Address, Rule>
    ensures ok { IfOk result (λ found. value_at Key.Home (table_view table.now) ≡ Some (whole (address_of found))) }
    ensures range { IfOk result (λ found. IsAddress (address_of found)) }
    ensures err { IfErr result (Misfits Key.Home (value_at Key.Home (table_view table.now))) }
{
    let number = number_at(table, Key::Home)?;
    match address_of(number) {
        Some(address) => Ok(address),
        None => Err(Rule::OutOfRange(Key::Home)),
    }
}
