//! LOAD UNLOAD, and parking a medium that is taken out of the drive.
ghost use Rattle.std.specs.Prelude.{◌≡◌, true, false};
ghost use Rattle.drive_commands.specs.State.{IsAtHand, machine_of, medium_in};
ghost use Rattle.drive_commands.specs.LoadUnload.{LoadsIn, LoadUnloadWork, UnloadsInto, unloaded};
ghost use Rattle.drive_commands.specs.Execute.{Takes, HonestIn};
ghost use Rattle.drive_commands.specs.Media.{ParksFrom};
ghost use Rattle.drive_commands.specs.Inner.Opening.{WakesTo};

use super::Drive;
use crate::bays::{Bay, fill};
use crate::faults::Fault;
use crate::loads::go_to_start;
use crate::opening::{check, start_of, wake_answer};
use pr_core::Keeper;
use scsi_attention::Attention;
use scsi_sense::{Reply, Sense};
use std::alloc::Global;
use std::mem;
use volume_core::{Medium, MediumError};
use vtl_base::{Bytes, Nexus};

impl<M: Medium, K: Keeper> Drive<M, K> {
    /// Loads the medium in the drive if `load` is true, else unloads it (SSC-4, LOAD UNLOAD).
    pub(super) fn load_unload(&mut self, nexus: Nexus, load: bool) -> Result<Reply, Fault>
        requires hand { IsAtHand M.below.at_hand self.old.bay }
        ensures { Takes M.state M.below K.kept K.below
            (LoadUnloadWork (HonestIn M.below (medium_in self.old.bay)) load nexus
            (machine_of M.state K.kept self.old))
            self.old result self.new }
    {
        if load {
            self.load_here(nexus)
        } else {
            self.unload_here()
        }
    }

    // UNLOAD: what is pending is stored, and the medium is parked.
    fn unload_here(&mut self) -> Result<Reply, Fault>
        requires hand { IsAtHand M.below.at_hand self.old.bay }
        ensures { Takes M.state M.below K.kept K.below
            (UnloadsInto unloaded (HonestIn M.below (medium_in self.old.bay))
            (machine_of M.state K.kept self.old).bay (machine_of M.state K.kept self.old))
            self.old result self.new }
    {
        match mem::replace(&mut self.bay, Bay::Empty) {
            Bay::Empty => Ok(check(self.alloc, Sense::medium_not_present())),
            Bay::Unloaded(medium) => {
                fill(&mut self.bay, Bay::Unloaded(medium));
                Ok(Reply::good(Bytes::new(self.alloc)))
            }
            Bay::Loaded(medium) => match park(medium) {
                Ok(parked) => {
                    fill(&mut self.bay, Bay::Unloaded(parked));
                    Ok(Reply::good(Bytes::new(self.alloc)))
                }
                Err(broken) => {
                    fill(&mut self.bay, Bay::Loaded(broken));
                    Err(Fault::Writing)
                }
            },
        }
    }

    // LOAD: the position goes to the start of a loaded medium; a medium that is not loaded is opened.
    fn load_here(&mut self, nexus: Nexus) -> Result<Reply, Fault>
        requires hand { IsAtHand M.below.at_hand self.old.bay }
        ensures { Takes M.state M.below K.kept K.below
            (LoadsIn (HonestIn M.below (medium_in self.old.bay))
            (machine_of M.state K.kept self.old).bay nexus (machine_of M.state K.kept self.old))
            self.old result self.new }
    {
        if let Bay::Loaded(medium) = &mut self.bay {
            if medium.has_failed() {
                return Ok(check(self.alloc, Sense::medium_failed()));
            }
            return go_to_start(self.alloc, medium, &mut self.position);
        }
        match mem::replace(&mut self.bay, Bay::Empty) {
            Bay::Empty => Ok(check(self.alloc, Sense::medium_not_present())),
            Bay::Unloaded(medium) => match wake(medium) {
                Ok(opened) => {
                    self.position = start_of(&opened);
                    fill(&mut self.bay, Bay::Loaded(opened));
                    self.attentions
                        .establish_for_others(nexus, Attention::MediumChanged);
                    Ok(Reply::good(Bytes::new(self.alloc)))
                }
                Err((parked, error)) => {
                    fill(&mut self.bay, Bay::Unloaded(parked));
                    wake_answer(self.alloc, error)
                }
            },
            Bay::Loaded(_other) => unreachable!(),
        }
    }
}

/// Stores what is pending, and then parks a loaded medium and returns it. If the device fails, the error returns the
/// medium, which is still awake and has failed.
pub(super) fn park<M: Medium>(medium: M) -> Result<M, M>
    requires awake { (M.state medium).awake ≡ true }
    requires hand { M.below.at_hand medium }
    ensures { ParksFrom M.state M.below medium result }
{
    let mut medium = medium;
    match medium.park() {
        Ok(()) => Ok(medium),
        Err(MediumError::Device) => Err(medium),
        Err(_) => unreachable!(),
    }
}

// Opens a parked medium. If that fails, the medium is returned with the error, and is still parked.
fn wake<M: Medium>(medium: M) -> Result<M, (M, MediumError)>
    requires parked { (M.state medium).awake ≡ false }
    requires hand { M.below.at_hand medium }
    ensures { WakesTo M.state M.below medium result }
{
    let mut medium = medium;
    match medium.wake() {
        Ok(()) => Ok(medium),
        Err(error) => Err((medium, error)),
    }
}
