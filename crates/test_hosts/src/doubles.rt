//! Hosts and a desk of a test's own, what they count, and a front end that sends and takes as a test wants it.
ghost use Rattle.std.specs.Prelude.{◌≡◌, ◌+◌, IfOk, length};
ghost use Rattle.vtl_base.specs.declared.limits.TheConstants.{NEXUSES};

use scsi_sense::Reply;
use std::alloc::Global;
use std::io::{ErrorKind, Read, Write};
use std::sync::Wait;
use std::sync::atomic::{AtomicU32, Ordering};
use std::test::Fail;
use std::time::{Clock, Duration};
use std::{io, thread};
use vtl_base::limits::NEXUSES;
use vtl_base::{Bytes, NoMemory};
use vtl_hosts::{Desk, Host};
use vtl_wire::{Answer, Entries, Request};

// How long a slow command takes, in milliseconds.
const SLOW: u64 = 20;

/// What is counted: commands that wait here for another, commands that were carried out, and answers that were flushed.
#[derive(Drop)]
pub struct Meeting {
    pub came: AtomicU32,
    pub done: AtomicU32,
    pub answered: AtomicU32,
}

// Waits until a count has come so far.
fn wait<R: Wait + Clock>(rt: &R, count: &AtomicU32, wanted: u32) {
    for _ in rt.forever() {
        if count.load(Ordering::SeqCst) >= wanted {
            break;
        }
        thread::sleep(rt, Duration::from_millis(1));
    }
}

/// A host that gives back the data that it is sent. A command whose operation code is FFh waits in the meeting first,
/// and one whose code is FEh takes some time.
#[derive(Drop)]
pub struct Echo<'a, R> {
    rt: &'a R,
    alloc: Global,
    meeting: &'a Meeting,
}

impl<'a, R: Wait + Clock> Host for Echo<'a, R> {
    ghost use Rattle.std.specs.Prelude.{true};

    ghost is_taken = { λ _ _. true };

    ghost answers = { λ _ _ _ _. Unit {0} };

    fn takes(&self, _request: &Request) -> bool {
        true
    }

    fn answer(&mut self, request: Request) -> Answer {
        match request {
            Request::Command {
                host,
                cdb,
                sent,
                tag,
                ..
            } => {
                match cdb.as_slice().first() {
                    Some(&0xff) => {
                        self.meeting.came.fetch_add(1, Ordering::SeqCst);
                        wait(self.rt, &self.meeting.came, 2);
                    }
                    Some(&0xfe) => thread::sleep(self.rt, Duration::from_millis(SLOW)),
                    _ => {}
                }
                self.meeting.done.fetch_add(1, Ordering::SeqCst);
                Answer::Command {
                    host,
                    reply: Reply::good(sent),
                    tag,
                }
            }
            Request::Move { tag, .. } | Request::Inventory { tag } => Answer::Inventory {
                entries: Entries::from_vec(Vec::new(self.alloc)),
                tag,
            },
        }
    }
}

/// All hosts, which may meet here.
pub fn all_hosts<'a, R: Wait + Clock>(
    rt: &'a R,
    alloc: Global,
    meeting: &'a Meeting,
) -> Result<Vec<Echo<'a, R>>, Fail>
    ensures { IfOk result (λ hosts. length hosts.items ≡ NEXUSES) }
{
    let mut hosts = Vec::new(alloc);
    for _ in 0..NEXUSES {
        hosts.push(Echo { rt, alloc, meeting })?;
    }
    Ok(hosts)
}

/// A desk that takes commands to drives 1 and 2. It answers to a move how many commands were carried out before.
#[derive(Drop)]
pub struct Counter<'a> {
    pub meeting: &'a Meeting,
}

impl Desk for Counter<'_> {
    ghost use Rattle.std.specs.Prelude.{◌≤◌, nat_le, true, Bool};
    ghost use Rattle.vtl_wire.specs.declared.requests.Request.{Request};
    ghost use Rattle.test_hosts.specs.Doubles.{is_within};

    ghost is_taken = { λ _ request. is_within request };

    ghost answers = { λ _ _ _ _. Unit {0} };

    ghost lacks = { λ _ _. Unit {0} };

    fn takes(&self, request: &Request) -> bool {
        match request {
            Request::Command { drive, .. } => drive.number() <= 2,
            Request::Move { .. } | Request::Inventory { .. } => true,
        }
    }

    fn serve(&mut self, alloc: Global, request: Request) -> Result<Answer, NoMemory> {
        let done = self.meeting.done.load(Ordering::SeqCst);
        Ok(match request {
            Request::Move { tag, .. } => Answer::Move {
                reply: Reply::good(Bytes::from_slice(alloc, &done.to_be_bytes())?),
                tag,
            },
            Request::Command { tag, .. } | Request::Inventory { tag } => Answer::Inventory {
                entries: Entries::from_vec(Vec::new(alloc)),
                tag,
            },
        })
    }
}

/// When a request is sent: at once; once those before it are answered; some time after they were carried out, and then
/// no answer is taken before all 64 were; or at once, and a read fails at the end.
#[derive(Clone, Copy, Debug, PartialEq)]
pub enum Sent {
    AtOnce,
    Answered,
    Done,
    Fails,
}

/// A front end that sends requests frame by frame.
#[derive(Drop)]
pub struct Sender<'a, R> {
    pub rt: &'a R,
    pub meeting: &'a Meeting,
    pub rest: &'a [u8],
    pub sent: Sent,
    /// What is left of a frame that was begun.
    pub left: usize,
    /// How many frames were begun.
    pub begun: u32,
    /// The most requests that were read and not carried out, as another was asked for.
    pub most: u32,
}

impl<R: Wait + Clock> Read for Sender<'_, R> {
    fn read(&mut self, buf: &mut [u8]) -> io::Result<usize> {
        if self.rest.is_empty() && self.sent == Sent::Fails {
            return Err(io::Error::from(ErrorKind::Other));
        }
        if self.left == 0 {
            let done = self.meeting.done.load(Ordering::SeqCst);
            self.most = self.most.max(self.begun.saturating_sub(done));
            match self.sent {
                Sent::Answered => wait(self.rt, &self.meeting.answered, self.begun),
                Sent::Done => {
                    wait(self.rt, &self.meeting.done, self.begun);
                    thread::sleep(self.rt, Duration::from_millis(SLOW));
                }
                Sent::AtOnce | Sent::Fails => {}
            }
            self.left = match self.rest {
                [_, _, _, block, _, _, 0, data, ..] => 16
                    + usize::from(*block)
                    + usize::from(*data),
                _ => self.rest.len(),
            };
            if self.left > 0 {
                self.begun = self.begun.saturating_add(1);
            }
        }
        let count = self.left.min(buf.len()).min(self.rest.len());
        buf[..count].copy_from_slice(&self.rest[..count]);
        self.rest = &self.rest[count..];
        self.left = self.left.saturating_sub(count);
        Ok(count)
    }
}

/// Takes a given number of bytes, and then fails; and counts the flushes.
#[derive(Drop)]
pub struct Taker<'a, R> {
    pub rt: &'a R,
    pub meeting: &'a Meeting,
    pub written: Vec<u8>,
    pub sent: Sent,
    pub left: usize,
}

impl<R: Wait + Clock> Write for Taker<'_, R> {
    fn write(&mut self, buf: &[u8]) -> io::Result<usize> {
        if self.sent == Sent::Done {
            wait(self.rt, &self.meeting.done, 64);
        }
        let count = self.left.min(buf.len());
        if count == 0 {
            return Err(io::Error::from(ErrorKind::BrokenPipe));
        }
        self.written.extend_from_slice(&buf[..count])?;
        self.left -= count;
        Ok(count)
    }

    fn flush(&mut self) -> io::Result<()> {
        let _ = self.meeting.answered.fetch_add(1, Ordering::SeqCst);
        Ok(())
    }
}
