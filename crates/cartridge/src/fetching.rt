//! Reading a block.
ghost use Rattle.std.specs.Prelude.{◌≡◌, ◌<◌, ◌≤◌, Some, length, true, false, IfSome, OnErr, OnOk, vec_capacity, vec_len};
ghost use Rattle.tape_disk.specs.TwoDisks.{AreHonest};
ghost use Rattle.vtl_base.specs.declared.limits.TheConstants.{MAX_BLOCK};
ghost use Rattle.volume_core.specs.declared.objects.Kind.TheVariants as Kinds;
ghost use Rattle.volume_core.specs.Volume.{block_at, kind_at};
ghost use Rattle.cartridge.specs.Answers.{MatchCall};
ghost use Rattle.cartridge.specs.Contents.{volume_made};
ghost use Rattle.cartridge.specs.Disks.{CallsOne, IsFaultOfTwo, NoneOfTwo, ReadsSide, UnwrittenTwo};

use crate::cartridges::Cartridge;
use crate::error::CartridgeError;
use gate_journal::JournalError;
use object_index::Placed;
use std::alloc::AllocError;
use tape_disk::Disk;
use volume_core::Catalog;
use vtl_base::{ObjNo, PartNo};

static ZEROS: [u8; 4_096] = [0; 4_096];

impl<D: Disk> Cartridge<D> {
    /// Reads the block with object number `at` in partition `part` into `into`, in place of the bytes there. The object
    /// must be a block. At Ok `into` has the block's length, at most 1,048,576 bytes, and, where both disks are honest,
    /// the block's bytes. At most one call is made, to the disk of the side that counts. Memory is allocated only where
    /// the block is longer than the capacity of `into`. After an error `into` may hold anything; after `Device` the
    /// cartridge has failed.
    pub fn fetch(
        &mut self,
        part: PartNo,
        at: ObjNo,
        into: &mut Vec<u8>,
    ) -> Result<(), CartridgeError>
        requires { kind_at (volume_made self.old.contents) part at ≡ Some Kinds.Block }
        ensures disks { CallsOne D.state self.old.contents.which self.old.disks self.new.disks }
        ensures same { self.new ≡ record self.old {
          disks = self.new.disks;
          failed = self.new.failed;
        } }
        ensures answer { MatchCall result
            ((self.old.failed ≡ false) × (self.new.failed ≡ false)
            × NoneOfTwo D.state self.old.disks self.new.disks
            × IfSome (block_at (volume_made self.old.contents) part at)
            (λ block. length into.new.items ≡ length block))
            ((self.old.failed ≡ false) × (self.new ≡ self.old)
            × IfSome (block_at (volume_made self.old.contents) part at)
            (λ block. vec_capacity into.old < length block)) ⊥
            (λ fault. (self.old.failed ≡ false) × (self.new.failed ≡ true)
            × IsFaultOfTwo D.state fault self.old.disks self.new.disks)
            ((self.old.failed ≡ true) × (self.new ≡ self.old)) }
        ensures bytes { AreHonest D.state self.old.disks → OnOk result
            (block_at (volume_made self.old.contents) part at ≡ Some into.new.items) }
        ensures bound { OnOk result (length into.new.items ≤ MAX_BLOCK) }
        ensures reads { OnOk result (IfSome (block_at (volume_made self.old.contents) part at)
            (λ block. ReadsSide D.effect self.old.contents.which (length block) self.old.disks self.new.disks)) }
        ensures unwritten { AreHonest D.state self.old.disks →
            UnwrittenTwo D.state self.old.disks self.new.disks }
    {
        if self.journal.has_failed() {
            return Err(CartridgeError::Failed);
        }
        // Called for the proof: the index keeps the limits of a volume.
        let _ = self.index.parts();
        let (place, length) = match self.index.place(part, at) {
            Some(Placed::Block { place, length }) => (place, length),
            Some(Placed::Mark) => unreachable!(),
            None => unreachable!(),
        };
        set_length(into, length as usize)?;
        let read = self.journal.read_body(place, into);
        match read {
            Ok(()) => Ok(()),
            Err(JournalError::Device(fault)) => Err(CartridgeError::Device(fault)),
            Err(JournalError::Failed) => unreachable!(),
            Err(JournalError::NoMemory) => unreachable!(),
            Err(JournalError::SideFull) => unreachable!(),
            Err(JournalError::NotOurs) => unreachable!(),
            Err(JournalError::Damaged { .. }) => unreachable!(),
        }
    }
}

// Gives `bytes` this length. What they are is not said: they are to be written over. Zeros are appended a piece at a
// time, since `resize` stores byte by byte.
fn set_length(bytes: &mut Vec<u8>, length: usize) -> Result<(), AllocError>
    ensures len { OnOk result (vec_len bytes.new ≡ length) }
    ensures full { OnErr result (vec_capacity bytes.old < length) }
{
    bytes.truncate(length);
    bytes.reserve(length - bytes.len())?;
    while bytes.len() < length {
        let piece = (length - bytes.len()).min(ZEROS.len());
        if bytes.extend_from_slice(&ZEROS[..piece]).is_err() {
            unreachable!();
        }
    }
    Ok(())
}
