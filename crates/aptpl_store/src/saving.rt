//! Saving a state, as one frame.
ghost use Rattle.std.specs.Prelude.{◌≡◌, ◌++◌, [], ◌∷◌, List, Some, false, OnOk};
ghost use Rattle.vtl_base.specs.Below.{Advances};
ghost use Rattle.tape_disk.specs.Disk.{Each, Keeps};
ghost use Rattle.tape_disk.specs.Moments.{LeavesOnly};
ghost use Rattle.pr_core.specs.Keepers.{Saves, save_met_fault, saved_by};
ghost use Rattle.pr_core.specs.States.{power_loss};
ghost use Rattle.aptpl_store.specs.Answers.{SavesState};
ghost use Rattle.aptpl_store.specs.Contents.{OpensAs, OpensAsEither, latest};
ghost use Rattle.aptpl_store.specs.Kept.{store_below, store_kept};

use crate::spelling::fill_body;
use crate::stores::AptplStore;
use gate_journal::{JournalError, NoParts};
use pr_core::{Keeper, KeeperError, Reservations};
use tape_disk::Disk;

impl<D: Disk> Keeper for AptplStore<D> {
    ghost use Rattle.vtl_base.specs.Below.{advances_nowhere};
    ghost use Rattle.accepted_changes.specs.Device.{one_disk, one_is_device};
    ghost use Rattle.accepted_changes.specs.Events.{core_moves_nowhere, core_moves_on};
    ghost use Rattle.aptpl_store.specs.Kept.{core_of, store_below, store_kept, store_rules};
    ghost use Rattle.aptpl_store.specs.State.{OpenStore};

    ghost kept = { store_kept };

    ghost below = { store_below D.state };

    /// Saves `reservations` as one frame, in four calls of the disk, two of which are syncs; the first save over bytes
    /// behind the end gate makes a call more, which cuts them off. At Ok, where the disk is honest, no crash loses
    /// them. A save for which memory is reserved allocates none. After `Device` the store has failed, and writes
    /// nothing more; where the disk is honest, the side then has the whole frame or nothing of it. After every other
    /// error nothing has changed.
    fn save(&mut self, reservations: &Reservations) -> Result<(), KeeperError>
        ensures answer { Saves (store_kept self.old) reservations.now result (store_kept self.new) }
        ensures advances { Advances (store_below D.state)
            self.old (saved_by result reservations.now) (save_met_fault result) self.new }
        ensures saves { SavesState self.old reservations.now result self.new }
        ensures sure { (D.state self.old.disk).honest → OnOk result
            (Each (D.state self.new.disk) (OpensAs self.new.heading (power_loss reservations.now))) }
        ensures any_moment { (D.state self.old.disk).honest → self.old.failed ≡ false →
            LeavesOnly (D.state self.old.disk) (D.state self.new.disk)
            (OpensAsEither self.old.heading (latest self.old.states) reservations.now) }
    {
        fill_body(&mut self.frame, reservations.state());
        match self.journal.append_frame(&mut self.frame, &NoParts) {
            Ok(()) => {
                self.noted = self.noted.with_state(reservations);
                Ok(())
            }
            Err(JournalError::Device(_)) => {
                self.noted = self.noted.with_torn_state(reservations);
                Err(KeeperError::Device)
            }
            Err(JournalError::NoMemory) => Err(KeeperError::NoMemory),
            Err(JournalError::SideFull) => Err(KeeperError::SideFull),
            Err(JournalError::Failed) => Err(KeeperError::Failed),
            Err(JournalError::NotOurs) => unreachable!(),
            Err(JournalError::Damaged { .. }) => unreachable!(),
        }
    }

    fn has_failed(&self) -> bool {
        self.journal.has_failed()
    }

    ghost advances_nowhere = { λ store. advances_nowhere (store_below D.state)
        (λ (value : OpenStore D).
        core_moves_nowhere store_rules (one_disk D.state) (one_is_device D.state) value.disk (core_of value)
        (D.is_disk value.disk))
        store };

    ghost moves_on = { λ a b c first second one two.
        core_moves_on store_rules (one_disk D.state) (one_is_device D.state) a.disk b.disk c.disk
        (core_of a) (core_of b) (core_of c) first second one two };
}
