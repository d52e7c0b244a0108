//! Reclaiming a closed cartridge: the changes that it accepted go into the volume on which later changes are carried
//! out.
ghost use Rattle.tape_buffer.specs.Reclaiming.{ReclaimsShelved};

use cartridge::laws::{a_pair_gives_one_volume, a_volume_is_made_since};
use cartridge::{Cartridge, NotReclaimed, Shelved};
use std::alloc::Global;
use tape_disk::Disk;

/// Reclaims the closed cartridge of a parked medium, or one that was not opened yet, as `Cartridge::reclaim` does. All
/// changes that the cartridge accepted since it was made or last reclaimed go into the volume of the copy. After an
/// error other than a device fault nothing was written.
pub fn reclaim<D: Disk>(alloc: Global, shelved: Shelved<D>) -> Result<Shelved<D>, NotReclaimed<D>>
    ensures { ReclaimsShelved D.state shelved result }
{
    // Called for the proof: a pair of images gives one cartridge's contents at most, and the changes since then make
    // their volume out of the volume before.
    a_pair_gives_one_volume();
    a_volume_is_made_since();
    match Cartridge::reclaim(alloc, shelved) {
        Ok(reclaimed) => {
            // Called for the proof: whatever crash comes, the disks give the copy.
            reclaimed.known();
            Ok(reclaimed)
        }
        Err(refused) => Err(refused),
    }
}
