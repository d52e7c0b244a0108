//! A keeper for tests: its store is limited, and one of its saves fails.
ghost use Rattle.std.specs.Prelude.{◌≡◌, None, false, length};
ghost use Rattle.vtl_base.specs.declared.limits.TheConstants.{NEXUSES};
ghost use Rattle.pr_core.specs.Keepers.{Saves, save_met_fault, saved_by, state_frame_size};
ghost use Rattle.test_media.specs.StagedKeeper.{planned_next, planned_now, staged_after, staged_answer, staged_kept};
ghost use Rattle.vtl_base.specs.Below.{Advances};

use pr_core::{Keeper, KeeperError, PrState, Reservations};
use std::marker::Model;

/// How the chosen save fails.
#[derive(Clone, Copy, PartialEq, Eq, Debug)]
pub enum SaveFault {
    NoMemory,
    Device,
}

/// Which save of a test keeper fails, and how. Each call of `save` counts.
#[derive(Clone, Copy)]
pub struct SavePlan {
    /// How many saves come before it: 0 is the first.
    pub after: u32,
    pub by: SaveFault,
}

/// A keeper for tests, in memory. Its store takes a limited number of bytes, and one of its saves fails. Once the
/// device has failed, the keeper stays failed.
#[derive(Drop)]
pub struct StagedKeeper {
    saved: Reservations,
    torn: Option<Reservations>,
    failed: bool,
    room: u64,
    plan: Option<SavePlan>,
}

impl Model for StagedKeeper {
    ghost use Rattle.test_media.specs.StagedKeeper.{StagedKept};

    ghost Value = { StagedKept };

    ghost view = { λ k. record {
      saved = k.saved;
      torn = k.torn;
      failed = k.failed;
      room = k.room;
      plan = k.plan;
    } };
}

// Whether and how the present save fails. The plan moves by one.
fn next_fault(plan: &mut Option<SavePlan>) -> Option<SaveFault>
    ensures fault { result ≡ planned_now plan.old }
    ensures next { plan.new ≡ planned_next plan.old }
{
    let SavePlan { after, by } = (*plan)?;
    if after == 0 {
        *plan = None;
        return Some(by);
    }
    *plan = Some(SavePlan {
        after: after - 1,
        by,
    });
    None
}

// The bytes that the state takes in a store, as a frame of its own.
fn frame_size(state: &PrState) -> u64
    requires { length state.now.keys ≡ NEXUSES }
    ensures { result ≡ state_frame_size state.now }
{
    let mut registered = 0;
    for key in &state.keys {
        if key.is_some() {
            registered += 1;
        }
    }
    9 + 9 * registered
}

impl StagedKeeper {
    /// A working keeper that holds these reservations. Its store takes `room` bytes more. `plan` says which
    /// save fails, if any.
    pub fn new(saved: Reservations, room: u64, plan: Option<SavePlan>) -> Self
        ensures { result ≡ record { saved = saved; torn = None; failed = false; room = room; plan = plan } }
    {
        StagedKeeper {
            saved,
            torn: None,
            failed: false,
            room,
            plan,
        }
    }

    /// The reservations that were saved last.
    pub fn saved(&self) -> &Reservations
        ensures { result.now ≡ self.now.saved }
    {
        &self.saved
    }

    /// The reservations whose save was in flight when the device failed. A restart may find them in place of
    /// those saved last.
    pub fn torn(&self) -> Option<Reservations>
        ensures { result ≡ self.now.torn }
    {
        self.torn
    }

    /// The bytes that may still be added to the store.
    pub fn room(&self) -> u64
        ensures { result ≡ self.now.room }
    {
        self.room
    }
}

impl Keeper for StagedKeeper {
    ghost use Rattle.test_media.specs.StagedKeeper.{staged_keeper_below, staged_kept, staged_saves_nowhere, staged_saves_on};
    ghost use Rattle.vtl_base.specs.Below.{advances_nowhere};

    ghost kept = { staged_kept };

    ghost below = { staged_keeper_below };

    fn save(&mut self, reservations: &Reservations) -> Result<(), KeeperError>
        ensures result { result ≡ staged_answer self.old reservations.now }
        ensures after { self.new ≡ staged_after result self.old reservations.now }
        ensures answer { Saves (staged_kept self.old) reservations.now result (staged_kept self.new) }
        ensures advances { Advances staged_keeper_below
            self.old (saved_by result reservations.now) (save_met_fault result) self.new }
    {
        let fault = next_fault(&mut self.plan);
        if self.failed {
            return Err(KeeperError::Failed);
        }
        let size = frame_size(reservations.state());
        if self.room < size {
            return Err(KeeperError::SideFull);
        }
        match fault {
            Some(SaveFault::NoMemory) => Err(KeeperError::NoMemory),
            Some(SaveFault::Device) => {
                self.torn = Some(*reservations);
                self.failed = true;
                Err(KeeperError::Device)
            }
            None => {
                self.saved = *reservations;
                self.torn = None;
                self.room -= size;
                Ok(())
            }
        }
    }

    fn has_failed(&self) -> bool {
        self.failed
    }

    ghost advances_nowhere = { λ keeper. advances_nowhere staged_keeper_below staged_saves_nowhere keeper };

    ghost moves_on = { staged_saves_on };
}
