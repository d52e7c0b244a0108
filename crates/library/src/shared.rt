//! A drive that threads share.
ghost use Rattle.std.specs.Prelude.{◌≡◌};
ghost use Rattle.drive_commands.specs.Data.{data_left};
ghost use Rattle.drive_commands.specs.Execute.{asked};
ghost use Rattle.library.specs.Served.{IsServed};

use crate::flushers::Gate;
use crate::places::{BackPlace, FrontPlace, Seat};
use ledgers::{Parties, Tally};
use scsi_sense::Reply;
use split_bay::Rings;
use std::sync::atomic::{AtomicBool, AtomicU64, Ordering};
use std::sync::{Condvar, Mutex, MutexGuard, Wait};
use tape_disk::Disk;
use volume_core::Turn;
use vtl_base::Bytes;

/// A drive in two halves, each behind a lock. A thread that takes both locks takes that of the hosts' half first. With
/// them go the condition variable that wakes the drive's flusher after a change; the number of beginnings and ends of
/// the flusher's turns, odd while a turn is under way; and the condition variable that wakes the hosts that wait for
/// the end of one. The last two are changed under the lock of the hosts' half.
#[derive(Drop)]
pub struct SharedBay<D: Disk, B: Parties + Rings> {
    pub(crate) front: Mutex<FrontPlace<D, B>>,
    pub(crate) back: Mutex<BackPlace<D, B>>,
    bell: Condvar,
    turns: AtomicU64,
    turned: Condvar,
}

impl<D: Disk + Drop, B: Parties + Rings> SharedBay<D, B> {
    pub(crate) fn new(front: FrontPlace<D, B>, back: BackPlace<D, B>) -> SharedBay<D, B> {
        SharedBay {
            front: Mutex::new(front),
            back: Mutex::new(back),
            bell: Condvar::new(),
            turns: AtomicU64::new(0),
            turned: Condvar::new(),
        }
    }

    // The halves behind the locks, when nobody else shares them.
    pub(crate) fn into_places(self) -> (FrontPlace<D, B>, BackPlace<D, B>) {
        (self.front.into_inner(), self.back.into_inner())
    }

    // Carries out a command of a seat's host, whose data are lent. The disk's half is locked only where the command
    // needs it.
    pub(crate) fn serve<H: Parties, R: Wait>(
        &self,
        rt: &R,
        tally: &Mutex<Tally<B, H>>,
        seat: &mut Seat<H>,
        cdb: &[u8],
        sent: &mut Bytes,
    ) -> Reply
        ensures { (served : IsServed D.state (asked seat.old.nexus cdb.now sent.old) seat.old result seat.new)
            × (sent.new ≡ data_left served.made sent.old) }
    {
        let before = seat.amount();
        let reply = self.serve_quietly(rt, tally, seat, cdb, sent);
        self.ring_if_risen(before, seat.amount());
        reply
    }

    // As `serve`, without waking the flusher.
    fn serve_quietly<H: Parties, R: Wait>(
        &self,
        rt: &R,
        tally: &Mutex<Tally<B, H>>,
        seat: &mut Seat<H>,
        cdb: &[u8],
        sent: &mut Bytes,
    ) -> Reply
        ensures { (served : IsServed D.state (asked seat.old.nexus cdb.now sent.old) seat.old result seat.new)
            × (sent.new ≡ data_left served.made sent.old) }
    {
        let mut front = self.front.lock(rt);
        match front.execute_alone(rt, tally, seat, cdb, sent) {
            Some(reply) => reply,
            None => {
                let mut front = self.after_turn(rt, front, sent);
                self.serve_locked(&mut front, rt, tally, seat, cdb, sent)
            }
        }
    }

    // Waits for the end of the flusher's turn, if one is under way, where data were sent that the hosts' half did not
    // take: after the turn it may take as many again. It waits for that turn alone, though the next may begin at once.
    // The hosts' half is not locked meanwhile. So its host does not store a frame itself while all that it sends later
    // waits for that.
    fn after_turn<'a, R: Wait>(
        &'a self,
        rt: &R,
        front: MutexGuard<'a, FrontPlace<D, B>>,
        sent: &Bytes,
    ) -> MutexGuard<'a, FrontPlace<D, B>> {
        let turns = self.turns.load(Ordering::SeqCst);
        if sent.is_empty() || turns % 2 == 0 {
            return front;
        }
        self.turned
            .wait_while(rt, front, |_| self.turns.load(Ordering::SeqCst) == turns)
    }

    // As `serve`, with the hosts' half locked by the caller.
    fn serve_locked<H: Parties, R: Wait>(
        &self,
        front: &mut FrontPlace<D, B>,
        rt: &R,
        tally: &Mutex<Tally<B, H>>,
        seat: &mut Seat<H>,
        cdb: &[u8],
        sent: &mut Bytes,
    ) -> Reply
        ensures { (served : IsServed D.state (asked seat.old.nexus cdb.now sent.old) seat.old result seat.new)
            × (sent.new ≡ data_left served.made sent.old) }
    {
        match front.execute_alone(rt, tally, seat, cdb, sent) {
            Some(reply) => reply,
            None => {
                let mut back = self.back.lock(rt);
                front.execute_both(&mut back, rt, tally, seat, cdb, sent)
            }
        }
    }

    // Takes a flusher's turn, with the disk's half alone locked. Returns what the turn did, and the drive's count of
    // changes before it, so that a change during the turn raises the count.
    pub(crate) fn take_turn<R: Wait, G: Gate>(&self, rt: &R, gate: &G) -> (Turn, u64) {
        let count = self.begin_turn(rt);
        let turn = self.turn(rt, gate);
        match turn {
            Turn::Idle => {}
            Turn::Stored(_) => self.renew(rt),
            Turn::Device => self.report_fault(rt),
        }
        self.end_turn(rt);
        (turn, count)
    }

    // Notes that a turn is under way. Returns the drive's count of changes.
    fn begin_turn<R: Wait>(&self, rt: &R) -> u64 {
        let front = self.front.lock(rt);
        self.turns.fetch_add(1, Ordering::SeqCst);
        front.accepted()
    }

    // Notes that the turn has ended, and wakes the hosts that wait for that.
    fn end_turn<R: Wait>(&self, rt: &R) {
        let _front = self.front.lock(rt);
        self.turns.fetch_add(1, Ordering::SeqCst);
        self.turned.notify_all();
    }

    // A turn under the lock of the disk's half.
    fn turn<R: Wait, G: Gate>(&self, rt: &R, gate: &G) -> Turn {
        let mut back = self.back.lock(rt);
        gate.in_turn();
        back.turn()
    }

    // Lets hosts send as many changes again as the buffer takes, under both locks. No turn runs meanwhile. So a host
    // that sends less than that during a turn never waits for the turn. Where memory for that runs out, all is stored;
    // if the device fails then, the drive reports it to hosts.
    fn renew<R: Wait>(&self, rt: &R) {
        let mut front = self.front.lock(rt);
        let mut back = self.back.lock(rt);
        let _ = front.renew(&mut back, rt);
    }

    // Reports a fault of the disk's half to hosts, under both locks.
    fn report_fault<R: Wait>(&self, rt: &R) {
        let mut front = self.front.lock(rt);
        let mut back = self.back.lock(rt);
        front.report_fault(&mut back, rt);
    }

    // Waits until the drive's count of changes is no longer `count`, or the library is closed.
    pub(crate) fn wait<R: Wait>(&self, rt: &R, count: u64, closed: &AtomicBool) {
        let held = self.front.lock(rt);
        let _ = self.bell.wait_while(rt, held, |place| {
            place.accepted() == count && !closed.load(Ordering::SeqCst)
        });
    }

    // Wakes the thread that waits for a change. The lock is taken first, so that no thread stands between its test and
    // its sleep.
    pub(crate) fn ring<R: Wait>(&self, rt: &R) {
        let _held = self.front.lock(rt);
        self.bell.notify_all();
    }

    // Wakes the thread that waits for a change, if a seat's amount has risen.
    fn ring_if_risen(&self, before: u64, after: u64) {
        if before != after {
            self.bell.notify_all();
        }
    }
}
