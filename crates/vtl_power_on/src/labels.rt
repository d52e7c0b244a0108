//! The labels of a library's cartridges, which say where each is when the library is switched on.
ghost use Rattle.std.specs.Prelude.{◌≡◌, IfOk};
ghost use Rattle.vtl_power_on.specs.Serving.{built_in_labels, home_label, labels_of};

use crate::starting::{BARCODE, DRIVE};
use std::alloc::Global;
use vtl_base::{Barcode, NoMemory};
use vtl_config::CartridgeEntry;
use vtl_serve::{Label, Labels};

// A copy of a barcode.
fn same_barcode(barcode: &Barcode) -> Barcode
    ensures { result ≡ barcode.now }
{
    match Barcode::parse(barcode.as_bytes()) {
        Ok(same) => same,
        Err(_) => unreachable!(),
    }
}

// The label of a cartridge at its home.
fn home_label(entry: &CartridgeEntry) -> Label
    ensures { result ≡ home_label entry.now }
{
    Label {
        address: u32::from(entry.home.number()),
        barcode: same_barcode(&entry.barcode),
    }
}

/// Returns a label for each cartridge of a configuration: its barcode, and the element address of its home.
pub fn labels_of(alloc: Global, entries: &[CartridgeEntry]) -> Result<Labels, NoMemory>
    ensures { IfOk result (λ labels. labels ≡ labels_of entries.now) }
{
    let mut labels = Vec::new(alloc);
    for entry in entries {
        if labels.push(home_label(entry)).is_err() {
            return Err(NoMemory);
        }
    }
    Ok(Labels::from_vec(labels))
}

/// Returns the labels of the built-in configuration: a single one, that of its only cartridge, which is in drive 1.
pub fn built_in_labels(alloc: Global) -> Result<Labels, NoMemory>
    ensures { IfOk result (λ labels. labels ≡ built_in_labels) }
{
    let Ok(barcode) = Barcode::parse(BARCODE) else {
        return Err(NoMemory);
    };
    let mut labels = Vec::new(alloc);
    let address = u32::from(DRIVE);
    if labels.push(Label { address, barcode }).is_err() {
        return Err(NoMemory);
    }
    Ok(Labels::from_vec(labels))
}
