//! Which rule is reported where several are broken. The expected values were worked out by hand.
use crate::cartridges::second_cartridge;
use crate::configs::{broken, refusal};
use std::alloc::Global;
use test_assertions::assert_equal;
use vtl_config::{ConfigError, Key, Place, Rule};

// Texts that break several rules, and the place and the rule that are reported.
static OF_THE_TOP: &'static [(&'static str, Place, Rule)] = &[
    (
        "cartridge = 1\ndrive = 1\nx = 1\n",
        Place::Top,
        Rule::OtherKey,
    ),
    (
        "cartridge = 1\ndrive = 1\n",
        Place::Top,
        Rule::OtherKind(Key::Drive),
    ),
    (
        "cartridge = 1\ndrive = [{}]\n",
        Place::Top,
        Rule::OtherKind(Key::Cartridge),
    ),
    (
        "cartridge = [{}]\ndrive = [{}]\n",
        Place::Drive(1),
        Rule::Missing(Key::Number),
    ),
];

#[test]
fn the_top_comes_first_and_drives_before_cartridges(rt: HostRuntime) {
    let alloc = rt.alloc();
    for &(text, place, rule) in OF_THE_TOP {
        assert_equal!(rt; refusal(alloc, text), broken(place, rule); text);
    }
}

// A drive with these values, after drive 1 with the file `r`.
fn second_drive(alloc: Global, values: &str) -> Option<ConfigError> {
    let document = format!(in alloc;
        "drive = [{{ number = 1, reservations = \"r\" }}, {{ {values} }}]"
    );
    match document {
        Ok(document) => refusal(alloc, document.as_str()),
        Err(_) => Some(ConfigError::NoMemory),
    }
}

// The values of a drive that break several rules, and the rule that is reported.
static OF_A_DRIVE: &'static [(&'static str, Rule)] = &[
    ("numbre = 17, reservations = 1", Rule::OtherKey),
    (
        "number = 0, reservations = 1",
        Rule::OutOfRange(Key::Number),
    ),
    ("number = \"1\"", Rule::OtherKind(Key::Number)),
    (
        "number = 1, reservations = 1",
        Rule::OtherKind(Key::Reservations),
    ),
    ("number = 1", Rule::Missing(Key::Reservations)),
    (
        "number = 1, reservations = \"r\"",
        Rule::Double(Key::Number),
    ),
];

#[test]
fn keys_of_a_drive_come_before_what_is_double(rt: HostRuntime) {
    for &(values, rule) in OF_A_DRIVE {
        assert_equal!(rt; second_drive(rt.alloc(), values), broken(Place::Drive(2), rule); values);
    }
}

// The values of a cartridge that break several rules, and the rule that is reported.
static OF_A_CARTRIDGE: &'static [(&'static str, Rule)] = &[
    (
        "bar_code = \"B\", file = 1, capacities = [], home = 0",
        Rule::OtherKey,
    ),
    (
        "file = 1, capacities = [], home = 0",
        Rule::Missing(Key::Barcode),
    ),
    (
        "barcode = \"b\", file = 1, capacities = 1, home = 0",
        Rule::OutOfRange(Key::Barcode),
    ),
    (
        "barcode = \"A\", file = 1, capacities = 1, home = 0",
        Rule::OtherKind(Key::File),
    ),
    (
        "barcode = \"A\", file = \"a\", capacities = 1, home = 0",
        Rule::OtherKind(Key::Capacities),
    ),
    (
        "barcode = \"A\", file = \"a\", capacities = [1]",
        Rule::OutOfRange(Key::Capacities),
    ),
    (
        "barcode = \"A\", file = \"a\", capacities = [4096], home = 17",
        Rule::OutOfRange(Key::Home),
    ),
    (
        "barcode = \"A\", file = \"a\", capacities = [4096], home = 1001",
        Rule::Double(Key::Barcode),
    ),
    (
        "barcode = \"A\", file = \"b\", capacities = [4096], home = 2",
        Rule::Double(Key::Barcode),
    ),
    (
        "barcode = \"B\", file = \"a\", capacities = [4096], home = 1001",
        Rule::Double(Key::File),
    ),
    (
        "barcode = \"B\", file = \"r\", capacities = [4096], home = 2",
        Rule::Double(Key::File),
    ),
];

// A cartridge with these values, after drive 1 and a cartridge at slot 1001.
fn cartridge(alloc: Global, values: &str) -> Option<ConfigError> {
    match format!(in alloc; "{{ {values} }}") {
        Ok(entry) => second_cartridge(alloc, entry.as_str()),
        Err(_) => Some(ConfigError::NoMemory),
    }
}

#[test]
fn keys_of_a_cartridge_come_before_what_is_double(rt: HostRuntime) {
    for &(values, rule) in OF_A_CARTRIDGE {
        assert_equal!(rt; cartridge(rt.alloc(), values), broken(Place::Cartridge(2), rule); values);
    }
}
