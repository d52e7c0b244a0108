//! Reserving memory for several later stores.
ghost use Rattle.std.specs.Prelude.{◌≡◌, ◌≤◌, ◌<◌, OnOk, OnErr, IfErr, length};
ghost use Rattle.vtl_base.specs.declared.limits.TheConstants.{MAX_PARTITIONS};
ghost use Rattle.object_index.specs.Places.{reserved_of};
ghost use Rattle.cartridge.specs.Answers.{HasReserved, KeepsReserved, LacksStores};
ghost use Rattle.cartridge.specs.Inner.Growing.{HasEntries, IsGrown, LacksEntries};

use crate::cartridges::Cartridge;
use crate::error::CartridgeError;
use object_index::Index;
use tape_disk::Disk;
use volume_core::Catalog;
use vtl_base::NoMemory;

impl<D: Disk> Cartridge<D> {
    /// Reserves memory for `stores` later stores, which then allocate nothing: each has a body of at most `body` bytes,
    /// and all of them together add at most `entries` blocks and runs of filemarks to each partition. For each of these
    /// blocks and runs 36 bytes are reserved: 24 in the table of blocks, and 12 in that of runs. After an error, what
    /// was reserved may have grown.
    pub fn reserve_stores(
        &mut self,
        stores: usize,
        body: usize,
        entries: usize,
    ) -> Result<(), CartridgeError>
        ensures same { self.new ≡ record self.old { reserved = self.new.reserved } }
        ensures grows { KeepsReserved self.old.reserved self.new.reserved }
        ensures ok { OnOk result (HasReserved stores body entries self.new.reserved) }
        ensures refused { IfErr result (λ error. (error ≡ CartridgeError.NoMemory)
            × LacksStores self.old.reserved stores body entries) }
    {
        self.frame.reserve(body)?;
        reserve_each(&mut self.index, entries)?;
        let Ok(()) = self.journal.reserve_extents(stores) else {
            return Err(CartridgeError::NoMemory);
        };
        Ok(())
    }
}

/// Reserves memory for `entries` more blocks and runs of filemarks in each partition of an index. After an error that
/// memory may be reserved in some of the partitions.
pub fn reserve_each(index: &mut Index, entries: usize) -> Result<(), NoMemory>
    ensures few { length index.old ≤ MAX_PARTITIONS }
    ensures grown { IsGrown index.old index.new }
    ensures ok { OnOk result (HasEntries index.new entries) }
    ensures err { OnErr result (LacksEntries index.old entries) }
{
    for part in 0..index.parts() {
        index.reserve(part, entries)?;
    }
    Ok(())
}
