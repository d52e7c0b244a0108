//! Persistent reservations: reading them, and carrying out orders that change them.
ghost use Rattle.std.specs.Prelude.{◌≡◌, false};
ghost use Rattle.scsi_opcodes.specs.Answers.{cut_to};
ghost use Rattle.drive_commands.specs.State.{machine_of};
ghost use Rattle.drive_commands.specs.ReserveIn.{ReserveInWork, data_read};
ghost use Rattle.drive_commands.specs.ReserveOut.{OrderWork, ReserveOutWork, order_reply, ordered};
ghost use Rattle.drive_commands.specs.Giving.{Gives};
ghost use Rattle.drive_commands.specs.Execute.{Takes};

use super::Drive;
use crate::faults::Fault;
use crate::opening::check;
use pr_core::{Attns, Keeper, PrAnswer, Reservations};
use scsi_lists::{PrAction, PrList, PrOut};
use scsi_opcodes::PrRead;
use scsi_sense::{Reply, Sense};
use std::alloc::Global;
use volume_core::Medium;
use vtl_base::{Bytes, Nexus};

impl<M: Medium, K: Keeper> Drive<M, K> {
    /// Returns the keys or the reservation, as `action` asks, cut to the `room` bytes that the host has for them
    /// (SPC-4, PERSISTENT RESERVE IN).
    pub(super) fn reserve_in(&mut self, action: PrRead, room: u16) -> Result<Reply, Fault>
        ensures { Takes M.state M.below K.kept K.below
            (ReserveInWork action room (machine_of M.state K.kept self.old))
            self.old result self.new }
    {
        read(self.alloc, &self.reservations, action, room)
    }

    /// Reads a parameter list, and carries out its order (SPC-4, PERSISTENT RESERVE OUT).
    pub(super) fn reserve_out(
        &mut self,
        nexus: Nexus,
        action: PrAction,
        sent: &[u8],
    ) -> Result<Reply, Fault>
        ensures { Takes M.state M.below K.kept K.below
            (ReserveOutWork action nexus sent.now (machine_of M.state K.kept self.old))
            self.old result self.new }
    {
        let order = match PrList::decode(action, sent) {
            Ok(order) => order,
            Err(sense) => return Ok(check(self.alloc, sense)),
        };
        if self.keeper.has_failed() {
            return Ok(check(self.alloc, Sense::keeper_failed()));
        }
        self.carry_order(nexus, &order)
    }

    // Carries out an order. What it leaves of the reservations is saved first, where a save is due.
    fn carry_order(&mut self, nexus: Nexus, order: &PrOut) -> Result<Reply, Fault>
        requires { (K.kept self.old.keeper).failed ≡ false }
        ensures { Takes M.state M.below K.kept K.below
            (OrderWork order.now nexus (machine_of M.state K.kept self.old))
            self.old result self.new }
    {
        let mut reservations = self.reservations;
        let (answer, established) = reservations.pr_out(nexus, order);
        if !reservations.needs_save(&self.reservations) {
            return Ok(self.install(reservations, &established, answer));
        }
        self.keeper.save(&reservations)?;
        Ok(self.install(reservations, &established, answer))
    }

    // Puts an order into effect: `reservations` are the drive's reservations from now on, and the unit attention
    // conditions in `established` are established, each for its nexus.
    fn install(
        &mut self,
        reservations: Reservations,
        established: &Attns,
        answer: PrAnswer,
    ) -> Reply
        ensures reply { result ≡ order_reply answer }
        ensures left { self.new ≡ ordered self.old reservations established.now }
    {
        self.reservations = reservations;
        self.attentions.establish_each(established.sets());
        order_reply(self.alloc, answer)
    }
}

// Returns the keys or the reservation, as `action` asks, cut to `room` bytes. Data of at most 24 bytes take no memory.
fn read(
    alloc: Global,
    reservations: &Reservations,
    action: PrRead,
    room: u16,
) -> Result<Reply, Fault>
    ensures { Gives (cut_to room (data_read action reservations.now)) result }
{
    let data = match action {
        PrRead::ReadKeys => reservations.read_keys(alloc, room as usize)?,
        PrRead::ReadReservation => reservations.read_reservation(alloc, room as usize)?,
    };
    Ok(Reply::good(data))
}

// The reply to an order that had this outcome. The call takes no memory.
fn order_reply(alloc: Global, answer: PrAnswer) -> Reply
    ensures { result ≡ order_reply answer }
{
    match answer {
        PrAnswer::Good => Reply::good(Bytes::new(alloc)),
        PrAnswer::Conflict => Reply::conflict(alloc),
        PrAnswer::BadType => check(alloc, Sense::invalid_field()),
        PrAnswer::BadKey => check(alloc, Sense::invalid_parameter()),
        PrAnswer::BadRelease => check(alloc, Sense::invalid_release()),
    }
}
