//! A host's command is answered by the hosts' half of a drive alone, or by both halves.
ghost use Rattle.std.specs.Prelude.{◌≡◌, ◌≢◌, ◌+◌, None, is_some, true};
ghost use Rattle.drive_commands.specs.Execute.{asked};
ghost use Rattle.split_bay.specs.Rings.{AreEnds};
ghost use Rattle.library.specs.Halves.{KeepsEach, RenewsHeld, ReportsHeld};
ghost use Rattle.library.specs.Served.{ServesAlone, ServesBoth, ServesFront, ServesHalves};

use super::entries::{enter_if_risen, wait_at_limit, wait_if_answered};
use super::held::fit;
use super::seats::Seat;
use super::{BackPlace, FrontPlace};
use aptpl_store::AptplStore;
use drive_theorems::replies_show_changes;
use ledgers::{Parties, PartyShare, Tally};
use scsi_sense::Reply;
use split_bay::{Back, Front, Rings, execute_both, make_room, tell};
use std::sync::{Mutex, Wait};
use tape_buffer::Buffered;
use tape_disk::Disk;
use volume_core::MediumError;
use vtl_base::Bytes;

// Counts a command for the seat of its host, if it was answered.
fn count_if_answered<H: Parties, R: Wait>(rt: &R, seat: &mut Seat<H>, reply: &Option<Reply>)
    ensures none { reply.now ≡ None → seat.new ≡ seat.old }
    ensures some { is_some reply.now ≡ true → seat.new ≡ record seat.old { answered = seat.old.answered + 1 } }
{
    if reply.is_some() {
        seat.count_answer(rt);
    }
}

// The hosts' half answers, where it needs no disk, and that is counted for the seat; the change that it accepted, if
// any, is entered in both ledgers.
fn answer_alone<D: Disk, B: Parties + Rings, H: Parties, R: Wait>(
    rt: &R,
    tally: &Mutex<Tally<B, H>>,
    half: &mut Front<D, B>,
    share: &mut PartyShare<B>,
    seat: &mut Seat<H>,
    cdb: &[u8],
    sent: &mut Bytes,
) -> Option<Reply>
    requires { share.old ≡ half.old.drive.accepted }
    ensures share { share.new ≡ half.new.drive.accepted }
    ensures serves { ServesFront D.state half.old (asked seat.old.nexus cdb.now sent.old) seat.old
        result half.new sent.new seat.new }
{
    // The law, and the half's invariant before and after, for the proof alone.
    replies_show_changes::<Buffered<D>, AptplStore<D>>();
    let before = half.accepted();
    half.known();
    let reply = half.execute(seat.nexus(), cdb, sent);
    half.known();
    let after = half.accepted();
    wait_if_answered(rt, before, cdb, &reply);
    count_if_answered(rt, seat, &reply);
    enter_if_risen(rt, tally, share, seat, before, after);
    reply
}

// Both halves answer, and that is counted for the seat; the change that they accepted, if any, is entered in both
// ledgers.
fn answer_both<D: Disk + Drop, B: Parties + Rings, H: Parties, R: Wait>(
    rt: &R,
    tally: &Mutex<Tally<B, H>>,
    front: &mut Front<D, B>,
    back: &mut Back<D, B>,
    share: &mut PartyShare<B>,
    seat: &mut Seat<H>,
    cdb: &[u8],
    sent: &mut Bytes,
) -> Reply
    requires share { share.old ≡ front.old.drive.accepted }
    requires ends { AreEnds front.old.sending back.old.number back.old.received }
    ensures share { share.new ≡ front.new.drive.accepted }
    ensures serves { ServesHalves D.state front.old back.old (asked seat.old.nexus cdb.now sent.old) seat.old
        result front.new back.new sent.new seat.new }
{
    replies_show_changes::<Buffered<D>, AptplStore<D>>();
    let before = front.accepted();
    let reply = execute_both(front, back, seat.nexus(), cdb, sent);
    let after = front.accepted();
    wait_at_limit(rt, before, cdb, &reply);
    seat.count_answer(rt);
    enter_if_risen(rt, tally, share, seat, before, after);
    reply
}

// Establishes, for proofs, what the types of both halves keep. The call does nothing else.
fn known_halves<D: Disk, B: Rings>(front: &Front<D, B>, back: &Back<D, B>)
    ensures { KeepsEach D.state front.now back.now }
{
    front.known();
    back.known();
}

impl<D: Disk + Drop, B: Parties + Rings> FrontPlace<D, B> {
    /// Answers a command of the host that has `seat`, with the hosts' half of the drive alone. `cdb` is the command
    /// block, and `sent` are the data that came with it. Returns None if the command needs the disk's half too; then
    /// nothing has changed. Else the seat counts the command as answered. If the drive accepts a change, it is entered
    /// in both ledgers (`tally`), and takes over the data of `sent` without a copy. The call waits forever if a change
    /// is to be entered, and the drive or the ledgers had already 2^64 - 1. A write error of a drive that had that many
    /// is such a case too, since the reply leaves open whether there was a change. The call also waits forever if that
    /// many commands of the host were answered.
    pub fn execute_alone<H: Parties, R: Wait>(
        &mut self,
        rt: &R,
        tally: &Mutex<Tally<B, H>>,
        seat: &mut Seat<H>,
        cdb: &[u8],
        sent: &mut Bytes,
    ) -> Option<Reply>
        ensures { ServesAlone D.state self.old (asked seat.old.nexus cdb.now sent.old) seat.old
            result self.new sent.new seat.new }
    {
        match &mut self.half {
            Some(half) => answer_alone(rt, tally, half, &mut self.share, seat, cdb, sent),
            None => unreachable!(),
        }
    }

    /// Answers a command as `execute_alone` does, but always with both halves, so there is always a reply. `back` has
    /// to be the disk's half of this drive; otherwise the call waits forever.
    pub fn execute_both<H: Parties, R: Wait>(
        &mut self,
        back: &mut BackPlace<D, B>,
        rt: &R,
        tally: &Mutex<Tally<B, H>>,
        seat: &mut Seat<H>,
        cdb: &[u8],
        sent: &mut Bytes,
    ) -> Reply
        ensures { ServesBoth D.state self.old back.old (asked seat.old.nexus cdb.now sent.old) seat.old
            result self.new back.new sent.new seat.new }
    {
        let Some(hosts) = &mut self.half else {
            unreachable!()
        };
        let Some(disks) = &mut back.half else {
            unreachable!()
        };
        fit(rt, hosts, disks);
        answer_both(rt, tally, hosts, disks, &mut self.share, seat, cdb, sent)
    }

    /// Reports a fault of the disk's half to the hosts, if there is one that was not reported yet. `back` has to be the
    /// disk's half of this drive; otherwise the call waits forever.
    pub fn report_fault<R: Wait>(&mut self, back: &mut BackPlace<D, B>, rt: &R)
        ensures { ReportsHeld D.state self.old back.old self.new back.new }
    {
        let Some(hosts) = &mut self.half else {
            unreachable!()
        };
        let Some(disks) = &mut back.half else {
            unreachable!()
        };
        fit(rt, hosts, disks);
        known_halves(hosts, disks);
        tell(hosts, disks);
        known_halves(hosts, disks);
    }

    /// Makes room: after that the hosts' half may again send as many changes as may be pending. If memory runs out, it
    /// may send none until both halves are held again, and all that it sent is stored. The result is then `NoMemory`,
    /// or `Device` where the device failed as it was stored. `back` has to be the disk's half of this drive; otherwise
    /// the call waits forever.
    pub fn renew<R: Wait>(&mut self, back: &mut BackPlace<D, B>, rt: &R) -> Result<(), MediumError>
        ensures { RenewsHeld D.state self.old back.old result self.new back.new }
    {
        let Some(hosts) = &mut self.half else {
            unreachable!()
        };
        let Some(disks) = &mut back.half else {
            unreachable!()
        };
        fit(rt, hosts, disks);
        let made = make_room(hosts, disks);
        known_halves(hosts, disks);
        made
    }
}
