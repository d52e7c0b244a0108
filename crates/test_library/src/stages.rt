//! What the threads of a test count, what they wait for, and the gate of a flusher.
use library::Gate;
use std::process::Abort;
use std::sync::atomic::{AtomicU64, Ordering};
use std::thread;
use std::time::{Clock, Duration};
use test_assertions::assert_holds;
use volume_core::Turn;

/// What is counted: flushers that reached the place where they wait, flushers that ended, and what threads signal to
/// each other, in order.
pub const STOOD: usize = 0;

pub const ENDED: usize = 1;

pub const SAID: usize = 2;

/// Syncs, once one is to last; those that are to last; those that began to last; what one that lasts waits for; and
/// those for which that did not come.
pub const SYNCED: usize = 3;

pub const ARMED: usize = 4;

pub const HELD: usize = 5;

pub const FREED: usize = 6;

pub const LATE: usize = 7;

/// Turns of drive 1 that began, that stored nothing, that stored something or failed, and that failed; and the stored
/// changes. Those of drive 2 are counted behind them.
pub const BEGUN: usize = 8;

pub const IDLE: usize = 9;

pub const BUSY: usize = 10;

pub const STORED: usize = 11;

pub const FAILED_TURNS: usize = 12;

pub const BEGUN_2: usize = 13;

pub const STORED_2: usize = 16;

/// A pause between two looks at a count, in which other threads run.
pub fn pause<R: Clock>(rt: &R) {
    thread::sleep(rt, Duration::from_millis(5));
}

/// All that is counted.
#[derive(Drop)]
pub struct Stage {
    counts: [AtomicU64; 18],
    // How much must be freed before a sync ends.
    wanted: u64,
    // Whether each sync that lasts frees the others.
    meets: bool,
}

impl Stage {
    /// A sync that is to last waits until this much is freed, or, where they meet, until so many have begun.
    pub fn new(wanted: u64, meets: bool) -> Stage {
        Stage {
            counts: [0u64; 18].map(|count| AtomicU64::new(count)),
            wanted,
            meets,
        }
    }

    /// How often this was counted.
    pub fn value(&self, sign: usize) -> u64 {
        self.counts[sign % 18].load(Ordering::SeqCst)
    }

    pub fn add(&self, sign: usize, more: u64) {
        let _ = self.counts[sign % 18].fetch_add(more, Ordering::SeqCst);
    }

    /// Whether a count reaches this number within 1,000 looks.
    pub fn reaches<R: Clock>(&self, rt: &R, sign: usize, wanted: u64) -> bool {
        for _ in 0..1_000u32 {
            if self.value(sign) >= wanted {
                return true;
            }
            pause(rt);
        }
        false
    }

    // The result of a turn of a drive's flusher.
    fn end(&self, number: u8, turn: Turn) {
        let behind = if number == 1 { 0 } else { 5 };
        let (sign, count) = match turn {
            Turn::Idle => (IDLE, 1),
            Turn::Stored(changes) => (STORED, changes as u64),
            Turn::Device => (FAILED_TURNS, 1),
        };
        self.add(sign + behind, count);
        if turn != Turn::Idle {
            self.add(BUSY + behind, 1);
        }
    }

    /// A sync that frees those that last, once some are to last.
    pub fn free(&self) {
        if self.value(ARMED) > 0 {
            self.add(FREED, 1);
        }
    }

    /// A sync. If it is to last, it lasts until enough is freed, or for five million looks, or until another one was
    /// late.
    pub fn sync(&self) {
        if self.value(ARMED) > 0 {
            self.add(SYNCED, 1);
        }
        if self.value(ARMED) <= self.value(HELD) {
            return;
        }
        self.add(HELD, 1);
        if self.meets {
            self.add(FREED, 1);
        }
        for _ in 0..5_000_000u32 {
            if self.value(FREED) >= self.wanted || self.value(LATE) > 0 {
                return;
            }
            thread::yield_now();
        }
        self.add(LATE, 1);
    }
}

/// Where a flusher waits until a sign has come to a number.
#[derive(Clone, Copy, Debug)]
pub enum Stands {
    Nowhere,
    /// In each turn, where the lock of the drive's disk's half is held, from the turn on behind which this many changes
    /// were stored.
    Inside(u64, usize, u64),
    /// Behind each turn in which the device failed, where no lock is held.
    Behind(usize, u64),
    /// It takes no turn.
    Shut,
}

/// The gate of a flusher of this drive. A sign that does not come in 1,000 looks ends the test.
#[derive(Drop)]
pub struct StageGate<'a, R: Clock + Abort> {
    pub rt: &'a R,
    pub stage: &'a Stage,
    pub number: u8,
    pub stands: Stands,
}

impl<'a, R: Clock + Abort> StageGate<'a, R> {
    fn stand(&self, sign: usize, until: u64) {
        self.stage.add(STOOD, 1);
        assert_holds!(self.rt; self.stage.reaches(self.rt, sign, until); sign);
    }
}

impl<'a, R: Clock + Abort> Gate for StageGate<'a, R> {
    fn before_turn(&self) -> bool {
        !matches!(self.stands, Stands::Shut)
    }

    fn in_turn(&self) {
        match self.stands {
            Stands::Inside(stored, sign, until) if self.stage.value(STORED) >= stored => {
                self.stand(sign, until);
            }
            _ => {}
        }
        self.stage
            .add(if self.number == 1 { BEGUN } else { BEGUN_2 }, 1);
    }

    fn after_turn(&self, turn: Turn) {
        self.stage.end(self.number, turn);
        if let (Turn::Device, Stands::Behind(sign, until)) = (turn, self.stands) {
            self.stand(sign, until);
        }
    }
}
