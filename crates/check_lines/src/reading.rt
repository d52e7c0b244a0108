//! Reads the blocks of a cartridge to their end.
ghost use Rattle.std.specs.Prelude.{◌≡◌, true, false, is_some, IfErr};
ghost use Rattle.volume_core.specs.Volume.{objects_of};
ghost use Rattle.cartridge.specs.Contents.{volume_made};
ghost use Rattle.check_lines.specs.Reading.{IsRead, block_lengths, block_length_at, lengths_in, wanted_lengths};

use cartridge::{Cartridge, CartridgeError};
use std::alloc::Global;
use tape_disk::Disk;
use volume_core::Kind;
use vtl_base::PartNo;
use vtl_faults::faults::VtlFault;

/// A receiver of reports on how much of a cartridge was read.
pub trait ReportsRead {
    /// Reports that the objects which were read so far use `used` bytes of the cartridge's capacity; all of its objects
    /// use `all` bytes.
    fn read(&self, used: u64, all: u64);
}

/// Where nothing is reported.
#[derive(Clone, Copy)]
pub struct Unreported;

impl ReportsRead for Unreported {
    fn read(&self, _used: u64, _all: u64) {}
}

// Reads an object, if it is a block.
fn read_object<D: Disk>(
    cartridge: &mut Cartridge<D>,
    part: PartNo,
    at: u32,
    room: &mut Vec<u8>,
) -> Result<(), VtlFault>
    requires { cartridge.old.failed ≡ false }
    ensures { IsRead D.state D.effect (block_length_at (volume_made cartridge.old.contents) part at)
        cartridge.old cartridge.new result }
{
    match cartridge.kind_at(part, at) {
        Some(Kind::Block) => match cartridge.fetch(part, at, room) {
            Ok(()) => Ok(()),
            Err(CartridgeError::Device(_)) => Err(VtlFault::Device),
            Err(CartridgeError::NoMemory) => Err(VtlFault::NoMemory),
            Err(CartridgeError::Failed) => unreachable!(),
            Err(CartridgeError::SideFull) => unreachable!(),
            Err(CartridgeError::NotOurs) => unreachable!(),
            Err(CartridgeError::Damaged { .. }) => unreachable!(),
            Err(CartridgeError::BadRecord { .. }) => unreachable!(),
        },
        Some(Kind::Mark) => Ok(()),
        None => Ok(()),
    }
}

// Reads the blocks of a partition. The objects of the partitions before it use `before` bytes, those of all use `all`.
fn read_partition<D: Disk, P: ReportsRead>(
    cartridge: &mut Cartridge<D>,
    part: PartNo,
    before: u64,
    all: u64,
    room: &mut Vec<u8>,
    reports: &P,
) -> Result<(), VtlFault>
    requires { cartridge.old.failed ≡ false }
    ensures { IsRead D.state D.effect (block_lengths (objects_of (volume_made cartridge.old.contents) part))
        cartridge.old cartridge.new result }
{
    let count = cartridge.count(part);
    for at in 0..count {
        if let Err(fault) = read_object(cartridge, part, at, room) {
            return Err(fault);
        }
        let used = cartridge.used(part, at + 1);
        reports.read(before.saturating_add(used), all);
    }
    Ok(())
}

// How many bytes of the capacity all objects of a cartridge use.
fn used_by_all<D: Disk>(cartridge: &Cartridge<D>) -> u64 {
    let mut all: u64 = 0;
    for part in 0..cartridge.parts() {
        all = all.saturating_add(cartridge.used(part, cartridge.count(part)));
    }
    all
}

// Reads each block of a cartridge to its end, and reports how far it has come.
fn read_blocks<D: Disk, P: ReportsRead>(
    alloc: Global,
    cartridge: &mut Cartridge<D>,
    reports: &P,
) -> Result<(), VtlFault>
    requires { cartridge.old.failed ≡ false }
    ensures { IsRead D.state D.effect (lengths_in (volume_made cartridge.old.contents))
        cartridge.old cartridge.new result }
{
    let all = used_by_all(cartridge);
    let mut room = Vec::new(alloc);
    let mut before: u64 = 0;
    for part in 0..cartridge.parts() {
        if let Err(fault) = read_partition(cartridge, part, before, all, &mut room, reports) {
            return Err(fault);
        }
        before = before.saturating_add(cartridge.used(part, cartridge.count(part)));
    }
    Ok(())
}

/// Reads each block of a cartridge to its end, and reports how far it has come, if there are `reports`; else it reads
/// nothing. Errors: `Device` where the disk fails, `NoMemory` where memory runs out for a block. The rest is not read
/// then.
pub fn read_wanted<D: Disk, P: ReportsRead>(
    alloc: Global,
    cartridge: &mut Cartridge<D>,
    reports: Option<&P>,
) -> Result<(), VtlFault>
    requires { cartridge.old.failed ≡ false }
    ensures read { IsRead D.state D.effect
        (wanted_lengths (is_some reports.entry) cartridge.old.contents) cartridge.old cartridge.new result }
    ensures wanted { IfErr result (λ fault. is_some reports.entry ≡ true) }
{
    match reports {
        Some(reports) => read_blocks(alloc, cartridge, reports),
        None => Ok(()),
    }
}
