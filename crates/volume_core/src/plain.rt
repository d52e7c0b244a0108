//! A medium that holds all in memory.
ghost use Rattle.std.specs.Prelude.{◌≡◌, IsTrue, IfOk, true, false};
ghost use Rattle.volume_core.specs.Volume.{are_capacities, empty_volume};
ghost use Rattle.volume_core.specs.Plain.{plain_state, plain_below};

use crate::changes::Change;
use crate::media::{Catalog, Medium, MediumError, NotAccepted, Turn};
use crate::objects::Kind;
use crate::volumes::{ApplyError, NotApplied, Volume};
use std::alloc::Global;
use std::marker::Model;
use vtl_base::{NoMemory, ObjNo, PartNo};

/// A cartridge in memory. It has no device that could fail, and nothing is ever pending. A contract sees its volume,
/// and whether it is awake.
#[derive(Drop)]
pub struct PlainMedium {
    volume: Volume,
    awake: bool,
}

impl Model for PlainMedium {
    ghost use Rattle.volume_core.specs.Plain.{Plain};

    ghost Value = { Plain };

    ghost view = { λ m. record { volume = m.volume; awake = m.awake } };
}

impl PlainMedium {
    /// Makes an empty cartridge, awake, with partitions of these capacities in bytes. They must be capacities that a
    /// cartridge can have, which `are_capacities` tests. If memory runs out, `NoMemory` is returned.
    pub fn new(alloc: Global, capacities: &[u64]) -> Result<Self, NoMemory>
        requires { IsTrue (are_capacities capacities.now) }
        ensures { IfOk result (λ medium.
            medium ≡ record { volume = empty_volume capacities.now; awake = true }) }
    {
        Ok(PlainMedium {
            volume: Volume::new(alloc, capacities)?,
            awake: true,
        })
    }
}

impl Catalog for PlainMedium {
    ghost use Rattle.volume_core.specs.Plain.{plain_state};

    ghost state = { plain_state };

    fn parts(&self) -> PartNo {
        self.volume.parts()
    }

    fn capacity(&self, part: PartNo) -> u64 {
        self.volume.capacity(part)
    }

    fn count(&self, part: PartNo) -> u32 {
        self.volume.count(part)
    }

    fn kind_at(&self, part: PartNo, at: ObjNo) -> Option<Kind> {
        self.volume.kind_at(part, at)
    }

    fn used(&self, part: PartNo, n: ObjNo) -> u64 {
        self.volume.used(part, n)
    }

    fn marks_upto(&self, part: PartNo, n: ObjNo) -> u32 {
        self.volume.marks_upto(part, n)
    }

    fn mark_at(&self, part: PartNo, k: u32) -> ObjNo {
        self.volume.mark_at(part, k)
    }
}

impl Medium for PlainMedium {
    ghost use Rattle.std.specs.Prelude.{refl, true};
    ghost use Rattle.vtl_base.specs.Below.{advances_nowhere};
    ghost use Rattle.volume_core.specs.Stores.{stores_nowhere};
    ghost use Rattle.volume_core.specs.Plain.{Plain, plain_state, plain_below, moves_nowhere_by_changes, moves_on_by_changes};

    ghost below = { plain_below };

    ghost alone = { λ medium bytes. true };

    fn accept(&mut self, change: Change) -> Result<(), NotAccepted> {
        match self.volume.apply(change) {
            Ok(()) => Ok(()),
            Err(
                NotApplied {
                    error: ApplyError::Refused(cause),
                    change,
                },
            ) => Err(NotAccepted {
                error: MediumError::Refused(cause),
                change,
            }),
            Err(
                NotApplied {
                    error: ApplyError::NoMemory,
                    change,
                },
            ) => Err(NotAccepted {
                error: MediumError::NoMemory,
                change,
            }),
        }
    }

    fn fetch(&mut self, part: PartNo, at: ObjNo, into: &mut Vec<u8>) -> Result<(), MediumError> {
        match self.volume.block_at(part, at) {
            Some(block) => {
                into.clear();
                match into.extend_from_slice(block) {
                    Ok(()) => Ok(()),
                    Err(_) => Err(MediumError::NoMemory),
                }
            }
            None => unreachable!(),
        }
    }

    fn settle(&mut self) -> Result<(), MediumError> {
        Ok(())
    }

    fn flush_turn(&mut self) -> Turn {
        Turn::Idle
    }

    fn park(&mut self) -> Result<(), MediumError> {
        self.awake = false;
        Ok(())
    }

    fn wake(&mut self) -> Result<(), MediumError> {
        self.awake = true;
        Ok(())
    }

    fn has_room_for(&self, _bytes: u32) -> bool {
        true
    }

    fn takes_alone(&self, _bytes: u32) -> bool {
        true
    }

    fn pending(&self) -> usize {
        0
    }

    fn has_failed(&self) -> bool {
        false
    }

    ghost advances_nowhere = { λ medium. advances_nowhere plain_below
        (λ (m : Plain). moves_nowhere_by_changes m.volume) medium };

    ghost awake_is_read = { λ medium awake. refl };

    ghost stores_nowhere = { λ medium. stores_nowhere (plain_state medium) };

    ghost moves_on = { λ a b c first second one two.
        moves_on_by_changes a.volume b.volume c.volume first second one two };
}
