//! The source of a copy's frames, one after another.
ghost use Rattle.std.specs.Prelude.{◌≡◌, ◌≤◌, ◌+◌, ℕ, List, length, OnOk, IfErr, vec_capacity, vec_len};

use crate::blocks::Blocks;
use cartridge_sides::GivesBodies;
use object_index::Index;
use tape_disk::Disk;
use volume_copy::{Cursor, spell_frame};
use vtl_base::DevFault;

// A copy in progress: the disk of the side that counts, where the objects lie on it, and the position in the
// copy.
#[derive(Drop)]
pub(crate) struct Source<D: Disk> {
    pub(crate) blocks: Blocks<D>,
    pub(crate) index: Index,
    pub(crate) cursor: Cursor,
}

impl<D: Disk> GivesBodies for Source<D> {
    ghost use Rattle.volume_reclaim.specs.Inner.Giving.{SourceFails, SourceGives};

    ghost gives = { SourceGives D.state };

    ghost fails = { SourceFails D.state };

    fn give(&mut self, buffer: &mut Vec<u8>) -> Result<(), DevFault> {
        match self.cursor.next(&self.index) {
            Some(_) => {
                self.cursor = spell_frame(self.cursor, &self.index, &mut self.blocks, buffer)?;
                Ok(())
            }
            None => {
                buffer.push_reserved(0);
                Ok(())
            }
        }
    }
}
