//! The first key of a table that may not stand at the table's place.
ghost use Rattle.std.specs.Prelude.{◌≡◌, IfSome, false};
ghost use Rattle.std.specs.List.{Contains};
ghost use Rattle.toml.specs.View.{table_view};
ghost use Rattle.vtl_config.specs.Keys.{is_one_of, keys_of};
ghost use Rattle.config_reasons.specs.Reasons.{keys_at};

use toml::Table;
use vtl_config::{Key, Place};

const TOP: [Key; 2] = [Key::Cartridge, Key::Drive];

const DRIVE: [Key; 2] = [Key::Number, Key::Reservations];

const CARTRIDGE: [Key; 4] = [Key::Barcode, Key::File, Key::Capacities, Key::Home];

fn is_one_of(keys: &[Key], name: &str) -> bool
    ensures { result ≡ is_one_of keys.now name.now }
{
    keys.iter().any(|key| key.name() == name)
}

fn other_key<'a>(table: &'a Table, keys: &[Key]) -> Option<&'a str>
    ensures { IfSome result (λ name. Contains (keys_of (table_view table.now)) name.now
        × (is_one_of keys.now name.now ≡ false)) }
{
    for name in table.keys() {
        if !is_one_of(keys, name.as_str()) {
            return Some(name.as_str());
        }
    }
    None
}

// The first key of a table that may not stand at the table's place; None where each may.
pub(crate) fn other_key_at<'a>(table: &'a Table, place: Place) -> Option<&'a str>
    ensures { IfSome result (λ name. Contains (keys_of (table_view table.now)) name.now
        × (is_one_of (keys_at place) name.now ≡ false)) }
{
    match place {
        Place::Top => other_key(table, &TOP),
        Place::Drive(_) => other_key(table, &DRIVE),
        Place::Cartridge(_) => other_key(table, &CARTRIDGE),
    }
}
