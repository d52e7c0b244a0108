//! Bells, which wake threads that wait for each other. No contract names them.
use std::alloc::{AllocError, Global};
use std::collections::VecDeque;
use std::sync::atomic::{AtomicBool, Ordering};
use std::sync::{Condvar, Mutex, Wait};
use std::time::{Clock, Duration};

// How often a bell rang, whether nothing more comes, and whether a thread waits.
#[derive(Clone, Copy, Drop)]
struct Rung {
    count: u64,
    closed: bool,
    waiting: bool,
}

/// A bell, for which one thread at a time waits. That thread first reads the count of rings, then looks for what it
/// needs, and then waits until the count has changed. So it misses no ring.
#[derive(Drop)]
pub(crate) struct Bell {
    rung: Mutex<Rung>,
    moved: Condvar,
}

impl Bell {
    pub(crate) fn new() -> Bell {
        Bell {
            rung: Mutex::new(Rung {
                count: 0,
                closed: false,
                waiting: false,
            }),
            moved: Condvar::new(),
        }
    }

    // Rings once. `closed` sets whether nothing more comes; None leaves that as it is.
    fn strike<R: Wait>(&self, rt: &R, closed: Option<bool>) {
        let mut rung = self.rung.lock(rt);
        rung.count = rung.count.wrapping_add(1);
        if let Some(closed) = closed {
            rung.closed = closed;
        }
        if rung.waiting {
            self.moved.notify_all();
        }
    }

    /// Rings the bell, which wakes the thread that waits, if one does.
    pub(crate) fn ring<R: Wait>(&self, rt: &R) {
        self.strike(rt, None);
    }

    /// Closes the bell: notes that nothing more comes, and wakes the thread that waits, if one does.
    pub(crate) fn close<R: Wait>(&self, rt: &R) {
        self.strike(rt, Some(true));
    }

    /// Opens the bell again: notes that something may come, and wakes the thread that waits, if one does.
    pub(crate) fn reopen<R: Wait>(&self, rt: &R) {
        self.strike(rt, Some(false));
    }

    /// How often the bell was rung, closed or opened again, modulo 2^64.
    pub(crate) fn count<R: Wait>(&self, rt: &R) -> u64 {
        self.rung.lock(rt).count
    }

    /// Waits until the bell rings again (its count is no longer `count`).
    pub(crate) fn wait<R: Wait>(&self, rt: &R, count: u64) {
        let mut held = self.rung.lock(rt);
        held.waiting = true;
        let mut rung = self.moved.wait_while(rt, held, |rung| rung.count == count);
        rung.waiting = false;
    }

    /// Waits until the bell rings again (its count is no longer `count`) or is closed. Returns true where it is closed:
    /// nothing more comes.
    pub(crate) fn wait_for_more<R: Wait>(&self, rt: &R, count: u64) -> bool {
        let mut held = self.rung.lock(rt);
        held.waiting = true;
        let mut rung = self
            .moved
            .wait_while(rt, held, |rung| rung.count == count && !rung.closed);
        rung.waiting = false;
        rung.closed
    }
}

/// The bells of a host. `commands` rings when a command comes for it, and `room` when there is room for its next
/// answer.
#[derive(Drop)]
pub(crate) struct HostBells {
    pub(crate) commands: Bell,
    pub(crate) room: Bell,
}

// How many seconds a round waits until one more of its threads has begun.
const BEGINNING: u64 = 1;

/// The bells of all threads: of the hosts, each at its place (the host's number less 1), of the reader and of the
/// writer. Also kept here are the places of the hosts that have an answer, in the order of the answers; how many
/// threads have begun; and whether a write failed.
#[derive(Drop)]
pub(crate) struct Bells {
    hosts: Vec<HostBells>,
    made: Mutex<VecDeque<usize>>,
    begun: Mutex<usize>,
    one_begun: Condvar,
    pub(crate) reader: Bell,
    pub(crate) writer: Bell,
    stopped: AtomicBool,
}

impl Bells {
    /// Bells for `count` hosts.
    pub(crate) fn new(alloc: Global, count: usize) -> Result<Bells, AllocError> {
        let mut hosts = Vec::with_capacity(alloc, count)?;
        for _ in 0..count {
            hosts.push(HostBells {
                commands: Bell::new(),
                room: Bell::new(),
            })?;
        }
        Ok(Bells {
            hosts,
            made: Mutex::new(VecDeque::with_capacity(alloc, count)?),
            begun: Mutex::new(0),
            one_begun: Condvar::new(),
            reader: Bell::new(),
            writer: Bell::new(),
            stopped: AtomicBool::new(false),
        })
    }

    /// The bells of the host at `place`, or None where there is no such host.
    pub(crate) fn host(&self, place: usize) -> Option<&HostBells> {
        self.hosts.get(place)
    }

    /// Rings the host at `place`, since a command came for it.
    pub(crate) fn ring_command<R: Wait>(&self, rt: &R, place: usize) {
        if let Some(bells) = self.hosts.get(place) {
            bells.commands.ring(rt);
        }
    }

    /// Notes that the host at `place` has an answer, and rings the writer. There is room for one note of each host,
    /// since a host's ring holds one answer.
    pub(crate) fn ring_answer<R: Wait>(&self, rt: &R, place: usize) {
        let _ = self.made.lock(rt).push_back(place);
        self.writer.ring(rt);
    }

    /// Takes the oldest note: the place of the host whose answer is next. None where there is no note.
    pub(crate) fn next_answer<R: Wait>(&self, rt: &R) -> Option<usize> {
        self.made.lock(rt).pop_front()
    }

    /// Rings the host at `place`, since there is room for its next answer.
    pub(crate) fn ring_room<R: Wait>(&self, rt: &R, place: usize) {
        if let Some(bells) = self.hosts.get(place) {
            bells.room.ring(rt);
        }
    }

    /// Begins a round: notes that no write failed and that no thread has begun, and opens the bells of the writer and
    /// of the hosts again.
    pub(crate) fn reopen<R: Wait>(&self, rt: &R) {
        self.stopped.store(false, Ordering::SeqCst);
        *self.begun.lock(rt) = 0;
        self.writer.reopen(rt);
        for bells in &self.hosts {
            bells.commands.reopen(rt);
        }
    }

    /// Notes that the thread of a host or of the writer has begun.
    pub(crate) fn begin<R: Wait>(&self, rt: &R) {
        let mut begun = self.begun.lock(rt);
        *begun = begun.saturating_add(1);
        self.one_begun.notify_all();
    }

    /// Waits until the threads of all hosts and of the writer have begun, or until none has begun for a second. Returns
    /// true where all have begun. Where no thread can be made for some of this work, that work begins only once the
    /// other threads have ended.
    pub(crate) fn have_begun<R: Wait + Clock>(&self, rt: &R) -> bool {
        let all = self.hosts.len().saturating_add(1);
        let wait = Duration::from_secs(BEGINNING);
        for _ in 0..all {
            let held = self.begun.lock(rt);
            let before = *held;
            if before >= all {
                return true;
            }
            let (begun, _) = self
                .one_begun
                .wait_timeout_while(rt, held, wait, |begun| *begun == before);
            if *begun == before {
                return false;
            }
        }
        *self.begun.lock(rt) >= all
    }

    /// Notes that nothing more comes for any host, and wakes the hosts.
    pub(crate) fn close_hosts<R: Wait>(&self, rt: &R) {
        for bells in &self.hosts {
            bells.commands.close(rt);
        }
    }

    /// Notes that a write failed, so that nothing more is read, and rings the reader.
    pub(crate) fn stop<R: Wait>(&self, rt: &R) {
        self.stopped.store(true, Ordering::SeqCst);
        self.reader.ring(rt);
    }

    /// Whether a write failed.
    pub(crate) fn is_stopped(&self) -> bool {
        self.stopped.load(Ordering::SeqCst)
    }
}
