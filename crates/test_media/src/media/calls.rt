//! The calls of a medium for tests, as a drive makes them.
use super::StagedMedium;
use volume_core::{Catalog, Change, Kind, Medium, MediumError, NotAccepted, Turn, refusal};
use vtl_base::{NoMemory, ObjNo, PartNo};

impl Catalog for StagedMedium {
    ghost use Rattle.test_media.specs.StagedMedium.{staged_state};

    ghost state = { staged_state };

    fn parts(&self) -> PartNo {
        self.volume().parts()
    }

    fn capacity(&self, part: PartNo) -> u64 {
        self.volume().capacity(part)
    }

    fn count(&self, part: PartNo) -> u32 {
        self.volume().count(part)
    }

    fn kind_at(&self, part: PartNo, at: ObjNo) -> Option<Kind> {
        self.volume().kind_at(part, at)
    }

    fn used(&self, part: PartNo, n: ObjNo) -> u64 {
        self.volume().used(part, n)
    }

    fn marks_upto(&self, part: PartNo, n: ObjNo) -> u32 {
        self.volume().marks_upto(part, n)
    }

    fn mark_at(&self, part: PartNo, k: u32) -> ObjNo {
        self.volume().mark_at(part, k)
    }
}

impl Medium for StagedMedium {
    ghost use Rattle.std.specs.Prelude.{refl, nat_lt};
    ghost use Rattle.vtl_base.specs.Below.{advances_nowhere};
    ghost use Rattle.volume_core.specs.Stores.{stores_nowhere};
    ghost use Rattle.test_media.specs.StagedMedium.{staged_state, staged_below, staged_moves_nowhere, staged_moves_on};

    ghost below = { staged_below };

    ghost alone = { λ medium bytes. nat_lt bytes medium.alone_below };

    fn accept(&mut self, change: Change) -> Result<(), NotAccepted> {
        if self.failed {
            let error = MediumError::Failed;
            return Err(NotAccepted { error, change });
        }
        if let Some(cause) = refusal(self.volume(), &change) {
            let error = MediumError::Refused(cause);
            return Err(NotAccepted { error, change });
        }
        if !self.has_room_for_frame(change.frame_size()) {
            let error = MediumError::SideFull;
            return Err(NotAccepted { error, change });
        }
        match self.add(change) {
            Ok(()) => Ok(()),
            Err(change) => {
                let error = MediumError::NoMemory;
                Err(NotAccepted { error, change })
            }
        }
    }

    fn fetch(&mut self, part: PartNo, at: ObjNo, into: &mut Vec<u8>) -> Result<(), MediumError> {
        if self.failed {
            return Err(MediumError::Failed);
        }
        if self.fetch_fuse.blows() {
            self.failed = true;
            self.is_torn = false;
            return Err(MediumError::Device);
        }
        match self.volume().block_at(part, at) {
            Some(block) => {
                into.clear();
                match into.extend_from_slice(block) {
                    Ok(()) => Ok(()),
                    Err(_) => Err(MediumError::NoMemory),
                }
            }
            None => unreachable!(),
        }
    }

    fn settle(&mut self) -> Result<(), MediumError> {
        if self.failed {
            return Err(MediumError::Failed);
        }
        self.store()
    }

    fn flush_turn(&mut self) -> Turn {
        let count = self.count_pending();
        if self.failed || count == 0 {
            return Turn::Idle;
        }
        match self.store() {
            Ok(()) => Turn::Stored(count),
            Err(_) => Turn::Device,
        }
    }

    fn park(&mut self) -> Result<(), MediumError> {
        if self.failed {
            self.close();
            return Ok(());
        }
        self.store()?;
        self.close();
        Ok(())
    }

    fn wake(&mut self) -> Result<(), MediumError> {
        if self.awake && self.failed {
            return Err(MediumError::Failed);
        }
        if self.awake {
            return Ok(());
        }
        match self.open() {
            Ok(()) => Ok(()),
            Err(NoMemory) => Err(MediumError::NoMemory),
        }
    }

    fn has_room_for(&self, bytes: u32) -> bool {
        self.has_room_for_frame(15 + bytes as u64)
    }

    fn takes_alone(&self, bytes: u32) -> bool {
        bytes < self.alone_below
    }

    fn pending(&self) -> usize {
        self.count_pending()
    }

    fn has_failed(&self) -> bool {
        self.failed
    }

    ghost advances_nowhere = { λ medium. advances_nowhere staged_below staged_moves_nowhere medium };

    ghost awake_is_read = { λ medium awake. refl };

    ghost stores_nowhere = { λ medium. stores_nowhere (staged_state medium) };

    ghost moves_on = { staged_moves_on };
}
