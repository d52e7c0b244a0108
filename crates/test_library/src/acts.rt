//! The acts of a thread in a test.
ghost use Rattle.std.specs.Prelude.{◌≡◌, nat_eq};
ghost use Rattle.std.specs.List.{list_all};
ghost use Rattle.library.specs.Counts.{has_drive};

use crate::replies::{Answer, GOOD, NO_ROOM, NO_SOURCE, Step, is_answer, is_one_of};
use crate::samples::drive;
use crate::stages::{BEGUN, ENDED, Stage, StageGate, Stands, pause};
use library::{Element, Library, Parties, Rings, Seat};
use scsi_sense::Reply;
use std::alloc::Global;
use std::process::Abort;
use std::sync::Wait;
use std::time::Clock;
use tape_disk::Disk;
use test_assertions::{assert_equal, assert_holds};
use vtl_base::{Bytes, Nexus};
use vtl_script::Line;

// The reply to a command of a seat's host to a drive that is there, and how many of its data are left.
fn reply_to<D: Disk + Drop, B: Parties + Rings, H: Parties, R: Wait + Abort>(
    rt: &R,
    alloc: Global,
    library: &Library<D, B, H>,
    seat: &mut Seat<H>,
    step: Step,
) -> (Reply, usize) {
    let (number, cdb, sent, _) = step;
    let number = drive(rt, number);
    // The `assert!` of `std`, since `command` requires this.
    assert!(rt; library.configured(number));
    let mut lent = Bytes::from_slice(alloc, sent).expect(rt, "memory");
    let reply = library.command(rt, seat, number, cdb, &mut lent);
    (reply, lent.len())
}

// The commands of a seat's host have these answers, one after another. A block that is written takes its data.
fn asks<D: Disk + Drop, B: Parties + Rings, H: Parties, R: Wait + Abort>(
    rt: &R,
    alloc: Global,
    library: &Library<D, B, H>,
    seat: &mut Seat<H>,
    steps: &[Step],
) {
    for (at, step) in steps.iter().enumerate() {
        let (reply, left) = reply_to(rt, alloc, library, seat, *step);
        is_answer(rt, &reply, step.3, at);
        let takes = step.1.first() == Some(&0x0a) && reply.sense.is_none();
        assert_equal!(rt; left, if takes { 0 } else { step.2.len() }; at);
    }
}

// A command of a seat's host has one of these answers, so many times.
fn asks_any<D: Disk + Drop, B: Parties + Rings, H: Parties, R: Wait + Abort>(
    rt: &R,
    alloc: Global,
    library: &Library<D, B, H>,
    seat: &mut Seat<H>,
    times: u32,
    step: Step,
    answers: &[Answer],
) {
    for _ in 0..times {
        let (reply, _) = reply_to(rt, alloc, library, seat, step);
        is_one_of(rt, &reply, answers);
    }
}

// The lines of a host.
fn lines(rt: &impl Abort, alloc: Global, host: Nexus, steps: &[Step]) -> Vec<Line> {
    let mut lines = Vec::new(alloc);
    for &(number, cdb, sent, _) in steps {
        let line = Line {
            host,
            drive: drive(rt, number),
            cdb: Bytes::from_slice(alloc, cdb).expect(rt, "memory"),
            sent: Bytes::from_slice(alloc, sent).expect(rt, "memory"),
        };
        lines.push(line).expect(rt, "memory");
    }
    lines
}

// Whether all lines are of this host.
fn are_of(lines: &[Line], host: Nexus) -> bool
    ensures { result ≡ list_all (λ line. nat_eq line.host host) lines.now }
{
    lines.iter().all(|line| line.host.number() == host.number())
}

// Whether all lines are to drives that are there.
fn are_configured<D: Disk + Drop, B: Parties + Rings, H: Parties>(
    library: &Library<D, B, H>,
    lines: &[Line],
) -> bool
    ensures { result ≡ list_all (λ line. has_drive library.now line.drive) lines.now }
{
    lines.iter().all(|line| library.configured(line.drive))
}

// The lines of a seat's host have these answers.
fn session<D: Disk + Drop, B: Parties + Rings, H: Parties, R: Wait + Abort>(
    rt: &R,
    alloc: Global,
    library: &Library<D, B, H>,
    seat: &mut Seat<H>,
    steps: &[Step],
) {
    let mut lines = lines(rt, alloc, seat.nexus(), steps);
    // The `assert!` of `std`, since `host_session` requires these.
    assert!(rt; are_of(lines.as_slice(), seat.nexus()));
    assert!(rt; are_configured(library, lines.as_slice()));
    let replies = library
        .host_session(rt, alloc, seat, lines.as_mut_slice())
        .expect(rt, "memory");
    assert_equal!(rt; replies.len(), steps.len());
    for (at, (reply, step)) in replies.iter().zip(steps.iter()).enumerate() {
        is_answer(rt, reply, step.3, at);
    }
}

// This many cartridges are seen, all at these addresses if there are some, and fourteen drives are missing.
fn has_seen<D: Disk + Drop, B: Parties + Rings, H: Parties, R: Wait + Abort>(
    rt: &R,
    library: &Library<D, B, H>,
    wanted: usize,
    at: &[u32],
) {
    let inventory = library.inventory(rt);
    let (mut full, mut missing) = (0usize, 0usize);
    let seen = inventory.drives.iter().chain(inventory.slots.iter());
    for (address, element) in (1..17u32).chain(1001..1257u32).zip(seen) {
        match element {
            Element::Full => full = full.saturating_add(1),
            Element::Missing => missing = missing.saturating_add(1),
            Element::Empty => assert_holds!(rt; !at.contains(&address); address),
        }
    }
    assert_equal!(rt; (full, missing), (wanted, 14));
}

// A host moves cartridges, with these answers. Its seat counts each move, also one that is refused, and no answer.
fn moves<D: Disk + Drop, B: Parties + Rings, H: Parties, R: Wait + Abort>(
    rt: &R,
    library: &Library<D, B, H>,
    seat: &mut Seat<H>,
    rows: &[(u32, u32, Answer)],
) {
    let before = (seat.moved(), seat.answered());
    for (at, &(from, to, wanted)) in rows.iter().enumerate() {
        is_answer(rt, &library.move_medium(rt, seat, from, to), wanted, at);
        let moved = before.0.saturating_add(at as u64).saturating_add(1);
        assert_equal!(rt; (seat.moved(), seat.answered()), (moved, before.1); at);
    }
}

// Moves to and fro, from one address to the next: each succeeds or not, depending on the other threads.
static AROUND: [u32; 20] = [
    1001, 1, 1, 2, 2, 1004, 1002, 2, 2, 1, 1, 1002, 1004, 1001, 1003, 1, 1, 1003, 2, 1001,
];

// Three cartridges are moved about, and each is always seen once.
fn moves_about<D: Disk + Drop, B: Parties + Rings, H: Parties, R: Wait + Abort>(
    rt: &R,
    library: &Library<D, B, H>,
    seat: &mut Seat<H>,
) {
    for _ in 0..60 {
        for pair in AROUND.chunks(2) {
            if let [from, to] = pair {
                let reply = library.move_medium(rt, seat, *from, *to);
                is_one_of(rt, &reply, &[GOOD, NO_SOURCE, NO_ROOM]);
            }
        }
        has_seen(rt, library, 3, &[]);
    }
}

/// One act of a thread. It has the seat of a host.
#[derive(Clone, Copy)]
pub enum Act {
    /// Its commands have these answers, one after another.
    Asks(&'static [Step]),
    /// The same a number of times, with so many pauses behind each.
    Times(u32, u32, &'static [Step]),
    /// The same in one session.
    Session(&'static [Step]),
    /// Its command has one of these answers, a number of times.
    Any(u32, Step, &'static [Answer]),
    /// Its host moves cartridges about.
    MovesAbout,
    /// Its host moves cartridges, with these answers.
    Moves(&'static [(u32, u32, Answer)]),
    /// A cartridge is seen at each of these addresses, and at no other.
    Sees(&'static [u32]),
    /// It is the flusher of a drive.
    Flushes(u8, Stands),
    /// The library is closed, and this many flushers have ended.
    Ends(u64),
    /// Waits until a sign has come to a number.
    Awaits(usize, u64),
    /// A sign is raised.
    Raises(usize),
    /// A sign is at a number.
    Counts(usize, u64),
    /// The turns at drive 1 that began, that stored nothing, that stored something or failed, and the stored changes.
    Turns([u64; 4]),
    /// Other threads run, for this many pauses.
    Pauses(u32),
}

// The acts with signs alone.
fn signals<R: Abort + Clock>(rt: &R, stage: &Stage, act: Act) {
    match act {
        Act::Awaits(sign, wanted) => assert_holds!(rt; stage.reaches(rt, sign, wanted); sign),
        Act::Raises(sign) => stage.add(sign, 1),
        Act::Counts(sign, wanted) => assert_equal!(rt; stage.value(sign), wanted; sign),
        Act::Turns(wanted) => {
            let seen = [0, 1, 2, 3].map(|behind: usize| stage.value(BEGUN.saturating_add(behind)));
            assert_equal!(rt; seen, wanted);
        }
        Act::Pauses(count) => {
            for _ in 0..count {
                pause(rt);
            }
        }
        _ => {}
    }
}

// The acts with a library and without the seat of a host, and those with signs.
fn does<D: Disk + Drop, B: Parties + Rings, H: Parties, R: Wait + Abort + Clock>(
    rt: &R,
    library: &Library<D, B, H>,
    stage: &Stage,
    act: Act,
) {
    match act {
        Act::Sees(at) => has_seen(rt, library, at.len(), at),
        Act::Flushes(number, stands) => {
            let gate = StageGate {
                rt,
                stage,
                number,
                stands,
            };
            library.flusher(rt, drive(rt, number), &gate);
            stage.add(ENDED, 1);
        }
        Act::Ends(flushers) => {
            library.close(rt);
            signals(rt, stage, Act::Awaits(ENDED, flushers));
        }
        _ => signals(rt, stage, act),
    }
}

// One act.
fn plays_one<D: Disk + Drop, B: Parties + Rings, H: Parties, R: Wait + Abort + Clock>(
    rt: &R,
    alloc: Global,
    library: &Library<D, B, H>,
    stage: &Stage,
    seat: &mut Seat<H>,
    act: Act,
) {
    match act {
        Act::Asks(steps) => asks(rt, alloc, library, seat, steps),
        Act::Times(times, pauses, steps) => {
            for _ in 0..times {
                asks(rt, alloc, library, seat, steps);
                signals(rt, stage, Act::Pauses(pauses));
            }
        }
        Act::Session(steps) => session(rt, alloc, library, seat, steps),
        Act::Any(times, step, answers) => {
            asks_any(rt, alloc, library, seat, times, step, answers);
        }
        Act::MovesAbout => moves_about(rt, library, seat),
        Act::Moves(rows) => moves(rt, library, seat, rows),
        _ => does(rt, library, stage, act),
    }
}

/// Plays these acts, one after another.
pub fn plays<D: Disk + Drop, B: Parties + Rings, H: Parties, R: Wait + Abort + Clock>(
    rt: &R,
    alloc: Global,
    library: &Library<D, B, H>,
    stage: &Stage,
    seat: &mut Seat<H>,
    parts: &[&[Act]],
) {
    for acts in parts {
        for act in *acts {
            plays_one(rt, alloc, library, stage, seat, *act);
        }
    }
}
