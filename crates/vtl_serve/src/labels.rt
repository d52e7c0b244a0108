//! The barcodes of the cartridges of a library, by element address.
ghost use Rattle.std.specs.Prelude.{◌≡◌, nat_eq, if◌then◌else◌};
ghost use Rattle.vtl_serve.specs.Labels.{barcode_at, carried};

use std::marker::Model;
use vtl_base::Barcode;

/// A label: the barcode of a cartridge, and the element address where the cartridge is.
#[derive(Drop)]
pub struct Label {
    /// The element address where the cartridge is.
    pub address: u32,
    /// The barcode of the cartridge.
    pub barcode: Barcode,
}

/// The labels of all cartridges of a library. A contract sees them as a list.
#[derive(Drop)]
pub struct Labels {
    labels: Vec<Label>,
}

impl Model for Labels {
    ghost use Rattle.std.specs.Prelude.{List};
    ghost use Rattle.vtl_serve.specs.declared.labels.Label.{Label};

    ghost Value = { List Label };

    ghost view = { λ l. l.labels.items };
}

// A copy of a barcode.
fn same_barcode(barcode: &Barcode) -> Barcode
    ensures { result ≡ barcode.now }
{
    match Barcode::parse(barcode.as_bytes()) {
        Ok(same) => same,
        Err(_) => unreachable!(),
    }
}

// The address of what was at `address`, once all at `from` was moved to `to`.
fn address_after(address: u32, from: u32, to: u32) -> u32
    ensures { result ≡ (if nat_eq address from then to else address) }
{
    if address == from { to } else { address }
}

// The barcode of the first of these labels at this address; None where no label is there.
fn barcode_among(labels: &[Label], address: u32) -> Option<Barcode>
    ensures { result ≡ barcode_at labels.now address }
{
    for label in labels {
        if label.address == address {
            return Some(same_barcode(&label.barcode));
        }
    }
    None
}

// Changes the address of each label at `from` to `to`.
fn carry_among(labels: &mut [Label], from: u32, to: u32)
    ensures { labels.new ≡ carried from to labels.old }
{
    for label in labels {
        label.address = address_after(label.address, from, to);
    }
}

impl Labels {
    /// The labels in this `Vec`. The call allocates no memory.
    pub fn from_vec(labels: Vec<Label>) -> Labels
        ensures { result ≡ labels.items }
    {
        Labels { labels }
    }

    /// The barcode of the cartridge at this element address; None where no cartridge is there.
    pub fn barcode_at(&self, address: u32) -> Option<Barcode>
        ensures { result ≡ barcode_at self.now address }
    {
        barcode_among(self.labels.as_slice(), address)
    }

    /// Notes that the cartridge that was at the element address `from` is now at `to`.
    pub fn carry(&mut self, from: u32, to: u32)
        ensures { self.new ≡ carried from to self.old }
    {
        carry_among(self.labels.as_mut_slice(), from, to);
    }
}
