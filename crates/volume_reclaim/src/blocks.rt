//! Reading blocks from a disk.
ghost use Rattle.std.specs.Prelude.{◌≡◌, ℕ, List, length, OnOk, IfErr};

use tape_disk::Disk;
use volume_copy::ReadsBlocks;
use vtl_base::DevFault;

// A disk from which blocks are read.
#[derive(Drop)]
pub(crate) struct Blocks<D: Disk> {
    pub(crate) disk: D,
}

impl<D: Disk> ReadsBlocks for Blocks<D> {
    ghost use Rattle.volume_reclaim.specs.Reading.{LiesOnDisk, OnlyRead, ReadUntilFault};
    ghost use Rattle.volume_reclaim.specs.ReadFacts.{fault_on, lies_still, read_nothing, read_on};

    ghost lies = { λ blocks block place. LiesOnDisk (D.state blocks.disk) block place };

    ghost honest = { λ blocks. (D.state blocks.disk).honest };

    ghost reads = { λ old new. OnlyRead (D.state old.disk) (D.state new.disk) };

    ghost fails = { λ old fault new. ReadUntilFault (D.state old.disk) fault (D.state new.disk) };

    fn read(&mut self, place: u64, block: &mut [u8]) -> Result<(), DevFault> {
        // Over honest disks each block lies inside. Over others nothing is promised of its bytes.
        let len = self.disk.len();
        let size = block.len() as u64;
        if size <= len && place <= len - size {
            self.disk.read_at(place, block)
        } else {
            Ok(())
        }
    }

    ghost reads_nothing = { λ a. read_nothing (D.state a.disk) (D.is_disk a.disk) };

    ghost reads_on = { λ a b c. read_on (D.state a.disk) (D.state b.disk) (D.state c.disk) };

    ghost fails_on = { λ a b c fault. fault_on (D.state a.disk) (D.state b.disk) (D.state c.disk) fault };

    ghost lies_on = { λ a b block place. lies_still (D.state a.disk) (D.state b.disk) block place };

    ghost honest_on = { λ a b read. read.keeps.stays_honest };
}
