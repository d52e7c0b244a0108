//! Reading a block, from what is pending or from the disk.
ghost use Rattle.std.specs.Prelude.{◌≡◌, ◌<◌, ◌≤◌, [], Some, Err, OnOk, IfSome, length, vec_capacity, false};
ghost use Rattle.tape_disk.specs.TwoDisks.{AreHonest, KeepsDisks, failures_of};
ghost use Rattle.cartridge.specs.Disks.{UnwrittenTwo};
ghost use Rattle.tape_buffer.specs.Inner.Fetching.{IsCopyOf, IsFetched};
ghost use Rattle.vtl_base.specs.Below.{Advances};
ghost use Rattle.vtl_base.specs.declared.limits.TheConstants.{MAX_BLOCK};
ghost use Rattle.volume_core.specs.declared.objects.Kind.TheVariants as Kinds;
ghost use Rattle.volume_core.specs.declared.media.MediumError.TheVariants as Errors;
ghost use Rattle.volume_core.specs.Volume.{after, block_at, kind_at};
ghost use Rattle.volume_core.specs.Medium.{Fetches, met_fault};
ghost use Rattle.volume_core.specs.Stores.{Stores};
ghost use Rattle.cartridge.specs.Contents.{volume_made};
ghost use Rattle.tape_buffer.specs.State.{IsPendingOver, open_buffer, open_state};
ghost use Rattle.tape_buffer.specs.Moves.{buffer_below};

use crate::pending::Pending;
use crate::seeking::waiting_block;
use cartridge::{Cartridge, CartridgeError};
use tape_disk::Disk;
use volume_core::MediumError;
use vtl_base::{Bytes, ObjNo, PartNo};

// Reads a block of the volume that is seen into `into`, in place of what that held.
pub(crate) fn fetch_over<D: Disk>(
    cartridge: &mut Cartridge<D>,
    pending: &Pending,
    part: PartNo,
    at: ObjNo,
    into: &mut Vec<u8>,
) -> Result<(), MediumError>
    requires held { IsPendingOver cartridge.old pending.now }
    requires block { kind_at (after (volume_made cartridge.old.contents) pending.now) part at ≡ Some Kinds.Block }
    ensures held { IsPendingOver cartridge.new pending.now }
    ensures bytes { AreHonest D.state cartridge.old.disks → OnOk result
        (block_at (after (volume_made cartridge.old.contents) pending.now) part at ≡ Some into.new.items) }
    ensures bound { OnOk result (length into.new.items ≤ MAX_BLOCK) }
    ensures answer { Fetches (open_state cartridge.old pending.now) result (open_state cartridge.new pending.now) }
    ensures memory { result ≡ Err Errors.NoMemory →
        IfSome (block_at (after (volume_made cartridge.old.contents) pending.now) part at)
        (λ block. vec_capacity into.old < length block) }
    ensures stores { Stores (open_state cartridge.old pending.now) [] (open_state cartridge.new pending.now) }
    ensures advances { Advances (buffer_below D.state) (open_buffer cartridge.old pending.now) [] (met_fault result)
        (open_buffer cartridge.new pending.now) }
{
    if cartridge.has_failed() {
        return Err(MediumError::Failed);
    }
    cartridge.known();
    match waiting_block(pending.as_slice(), part, at) {
        Some(block) => copy_block(block, into),
        None => fetch_stored(cartridge, part, at, into),
    }
}

// Copies a block.
fn copy_block(block: &Bytes, into: &mut Vec<u8>) -> Result<(), MediumError>
    ensures { IsCopyOf block.now (vec_capacity into.old) result into.new.items }
{
    into.clear();
    match into.extend_from_slice(block.as_slice()) {
        Ok(()) => Ok(()),
        Err(_) => Err(MediumError::NoMemory),
    }
}

// Reads the block of an object that is stored.
fn fetch_stored<D: Disk>(
    cartridge: &mut Cartridge<D>,
    part: PartNo,
    at: ObjNo,
    into: &mut Vec<u8>,
) -> Result<(), MediumError>
    requires works { cartridge.old.failed ≡ false }
    requires block { kind_at (volume_made cartridge.old.contents) part at ≡ Some Kinds.Block }
    ensures disks { KeepsDisks D.state cartridge.old.disks cartridge.new.disks }
    ensures same { cartridge.new ≡ record cartridge.old {
      disks = cartridge.new.disks;
      failed = cartridge.new.failed;
    } }
    ensures answer { IsFetched result
        (IfSome (block_at (volume_made cartridge.old.contents) part at)
        (λ block. vec_capacity into.old < length block))
        cartridge.new.failed (failures_of D.state cartridge.old.disks) (failures_of D.state cartridge.new.disks) }
    ensures bytes { AreHonest D.state cartridge.old.disks → OnOk result
        (block_at (volume_made cartridge.old.contents) part at ≡ Some into.new.items) }
    ensures bound { OnOk result (length into.new.items ≤ MAX_BLOCK) }
    ensures unwritten { AreHonest D.state cartridge.old.disks →
        UnwrittenTwo D.state cartridge.old.disks cartridge.new.disks }
{
    match cartridge.fetch(part, at, into) {
        Ok(()) => Ok(()),
        Err(CartridgeError::NoMemory) => Err(MediumError::NoMemory),
        Err(CartridgeError::Device(_)) => Err(MediumError::Device),
        Err(
            CartridgeError::Failed
            | CartridgeError::SideFull
            | CartridgeError::NotOurs
            | CartridgeError::Damaged { .. }
            | CartridgeError::BadRecord { .. },
        ) => unreachable!(),
    }
}
