//! MODE SELECT and MODE SENSE.
ghost use Rattle.std.specs.Prelude.{◌≡◌};
ghost use Rattle.scsi_lists.specs.ModeLists.{mode_data};
ghost use Rattle.scsi_opcodes.specs.Answers.{cut_to};
ghost use Rattle.drive_commands.specs.State.{machine_of};
ghost use Rattle.drive_commands.specs.Mode.{ModeSelectWork, ModeSenseWork, in_asked_mode};
ghost use Rattle.drive_commands.specs.Giving.{Gives};
ghost use Rattle.drive_commands.specs.Execute.{Takes};

use super::Drive;
use crate::faults::Fault;
use crate::giving::give;
use crate::opening::check;
use pr_core::Keeper;
use scsi_attention::Attention;
use scsi_lists::{ModeList, mode_data, mode_data_without_descriptors};
use scsi_opcodes::cut_to;
use scsi_sense::Reply;
use std::alloc::Global;
use volume_core::Medium;
use vtl_base::{Bytes, Nexus};

impl<M: Medium, K: Keeper> Drive<M, K> {
    /// Reads a parameter list, and sets the mode that the list asks for (SPC-4, MODE SELECT).
    pub(super) fn mode_select(&mut self, nexus: Nexus, sent: &[u8]) -> Result<Reply, Fault>
        ensures { Takes M.state M.below K.kept K.below
            (ModeSelectWork nexus sent.now (machine_of M.state K.kept self.old))
            self.old result self.new }
    {
        match ModeList::decode(sent) {
            Ok(list) => {
                self.change_mode(nexus, list.buffered);
                Ok(Reply::good(Bytes::new(self.alloc)))
            }
            Err(sense) => Ok(check(self.alloc, sense)),
        }
    }

    // Sets the mode that a list asks for, if it asks for one. A change establishes a unit attention
    // condition for every other nexus.
    fn change_mode(&mut self, nexus: Nexus, asked: Option<bool>)
        ensures { self.new ≡ in_asked_mode asked nexus self.old }
    {
        if let Some(buffered) = asked {
            if buffered != self.buffered {
                self.buffered = buffered;
                self.attentions
                    .establish_for_others(nexus, Attention::ModeChanged);
            }
        }
    }

    /// Returns the mode data, cut to the `room` bytes that the host has for them. Where `bare` is true, they have no
    /// block descriptor (SPC-4, MODE SENSE).
    pub(super) fn mode_sense(&mut self, bare: bool, room: u8) -> Result<Reply, Fault>
        ensures { Takes M.state M.below K.kept K.below
            (ModeSenseWork bare room (machine_of M.state K.kept self.old))
            self.old result self.new }
    {
        give_mode(self.alloc, self.buffered, bare, room)
    }
}

// Returns the mode data, cut to `room` bytes. Where `bare` is true, they have no block descriptor.
fn give_mode(alloc: Global, buffered: bool, bare: bool, room: u8) -> Result<Reply, Fault>
    ensures { Gives (cut_to room (mode_data buffered bare)) result }
{
    if bare {
        give(
            alloc,
            cut_to(&mode_data_without_descriptors(buffered), room as usize),
        )
    } else {
        give(alloc, cut_to(&mode_data(buffered), room as usize))
    }
}
