//! Hosts that are served over one pipe, over frames that were worked by hand.
use crate::doubles::{Counter, Meeting, Sender, Sent, Taker, all_hosts};
use std::alloc::Global;
use std::sync::Wait;
use std::sync::atomic::{AtomicU32, Ordering};
use std::test::Fail;
use std::thread::Threads;
use std::time::Clock;
use test_assertions::{assert_equal, assert_holds};
use vtl_hosts::serve_hosts;
use vtl_wire::WireFault;

// Commands of host 3, with a move and an inventory between them.
static REQUESTS: [&'static str; 7] = [
    "01 03 01 06 00000002 00000001 00000000 000000000000 6162",
    "01 03 02 06 00000000 00000002 00000000 000000000000",
    "02 00 00 08 00000000 00000003 00000000 000003e9 00000002",
    "01 03 02 01 00000001 fffffffe 00000000 00 63",
    "03 00 00 00 00000000 00000005 00000000",
    "02 00 00 08 00000000 00000003 00000000 00000002 000003e9",
    "01 03 01 00 00000000 00000006 00000000",
];

// The answers to them, worked by hand: GOOD, and the data that were sent; to a move the number of commands before it.
static ANSWERS: [&'static str; 7] = [
    "01 03 00 00 00000002 00000001 00000000 6162",
    "01 03 00 00 00000000 00000002 00000000",
    "02 00 00 00 00000004 00000003 00000000 00000002",
    "01 03 00 00 00000001 fffffffe 00000000 63",
    "03 00 00 00 00000000 00000005 00000000",
    "02 00 00 00 00000004 00000003 00000000 00000003",
    "01 03 00 00 00000000 00000006 00000000",
];

// More than any answers have.
const ALL: usize = 1_000_000;

// The bytes that these lines of hex digits spell; spaces don't count.
fn bytes_of(alloc: Global, lines: &[&'static str]) -> Result<Vec<u8>, Fail> {
    let mut digits = Vec::new(alloc);
    for line in lines {
        for digit in line.as_bytes() {
            if *digit != b' ' {
                digits.push(*digit)?;
            }
        }
    }
    Ok(hex::decode(alloc, digits.as_slice())?)
}

// How an input ended, and what was written; how many commands were carried out, how many frames were read, and the most
// that were ahead.
type Came = (Result<(), WireFault>, Vec<u8>, u32, u32, u32);

// What comes of an input that is sent so, where so many bytes are taken.
fn serving<R: Threads + Wait + Clock + Sync>(
    rt: &R,
    alloc: Global,
    input: &[u8],
    sent: Sent,
    left: usize,
) -> Result<Came, Fail> {
    let meeting = Meeting {
        came: AtomicU32::new(0),
        done: AtomicU32::new(0),
        answered: AtomicU32::new(0),
    };
    let mut desk = Counter { meeting: &meeting };
    let mut reader = Sender {
        rt,
        meeting: &meeting,
        rest: input,
        sent,
        left: 0,
        begun: 0,
        most: 0,
    };
    let mut writer = Taker {
        rt,
        meeting: &meeting,
        written: Vec::new(alloc),
        sent,
        left,
    };
    let hosts = all_hosts(rt, alloc, &meeting)?;
    match serve_hosts(rt, alloc, hosts, &mut desk, &mut reader, &mut writer) {
        Ok(served) => {
            let (done, begun, most) = (
                meeting.done.load(Ordering::SeqCst),
                reader.begun,
                reader.most,
            );
            Ok((served.outcome, writer.written, done, begun, most))
        }
        Err(_) => Err(Fail::from("out of memory")),
    }
}

// Each of 64 hosts, from the last on, sends so many commands, whose tags have the host and the number of the command;
// or the answers to them.
fn crowd(alloc: Global, rounds: u8, are_answers: bool) -> Result<Vec<u8>, Fail> {
    let mut frames = Vec::new(alloc);
    for number in 0..rounds {
        for place in 0..64u8 {
            let host = 64 - place;
            let drive = if are_answers { 0 } else { host % 2 + 1 };
            frames.extend_from_slice(&[1, host, drive, 0, 0, 0, 0, 0])?;
            frames.extend_from_slice(&[0, 0, host, number, 0, 0, 0, 0])?;
        }
    }
    Ok(frames)
}

// A request is sent once those before it are answered; or all are made before the first answer is taken.
#[test]
fn each_is_answered_before_the_next_is_sent(rt: HostRuntime) -> Result<(), Fail> {
    let inputs = [
        bytes_of(rt.alloc(), &REQUESTS)?,
        crowd(rt.alloc(), 1, false)?,
    ];
    let outputs = [bytes_of(rt.alloc(), &ANSWERS)?, crowd(rt.alloc(), 1, true)?];
    for (place, sent) in [(0, Sent::Answered), (1, Sent::Answered), (1, Sent::Done)] {
        let input = inputs[place % 2].as_slice();
        let (end, written, _, _, _) = serving(&rt, rt.alloc(), input, sent, ALL)?;
        assert_equal!(rt; end, Ok(()); sent);
        assert_equal!(rt; written.as_slice(), outputs[place % 2].as_slice(); sent);
    }
    Ok(())
}

// Nothing, a command to a drive that the desk does not take, half a frame, and one of no kind.
static REFUSED: &'static [&'static str] = &[
    "",
    "01 03 03 06 00000000 00000007 00000000 000000000000",
    "01 03 01 06 00000000 0000",
    "04 00 00 00 00000000 00000000 00000000",
];

#[test]
fn what_stands_before_a_refused_frame_is_answered(rt: HostRuntime) -> Result<(), Fail> {
    let output = bytes_of(rt.alloc(), &ANSWERS)?;
    for frame in REFUSED {
        let mut input = bytes_of(rt.alloc(), &REQUESTS)?;
        input.extend_from_slice(bytes_of(rt.alloc(), &[*frame])?.as_slice())?;
        let came = serving(&rt, rt.alloc(), input.as_slice(), Sent::AtOnce, ALL)?;
        let refused = Err(WireFault::BadFrame { frame: 8 });
        assert_equal!(rt; came.0, if frame.is_empty() { Ok(()) } else { refused }; frame);
        assert_equal!(rt; came.1.as_slice(), output.as_slice(); frame);
        assert_equal!(rt; came.2, 4; frame);
    }
    Ok(())
}

#[test]
fn a_writer_fails_behind_each_byte(rt: HostRuntime) -> Result<(), Fail> {
    let input = bytes_of(rt.alloc(), &REQUESTS)?;
    let output = bytes_of(rt.alloc(), &ANSWERS)?;
    for left in 0..output.len() {
        let came = serving(&rt, rt.alloc(), input.as_slice(), Sent::AtOnce, left)?;
        assert_equal!(rt; (came.0, came.1.len()), (Err(WireFault::WriteFault), left); left);
        assert_holds!(rt; output.as_slice().starts_with(came.1.as_slice()); left);
    }
    Ok(())
}

// In each frame a read fails behind its first byte, before its last and behind it. What stands before is answered.
#[test]
fn a_reader_fails_in_each_frame(rt: HostRuntime) -> Result<(), Fail> {
    let input = bytes_of(rt.alloc(), &REQUESTS)?;
    let mut begin: usize = 0;
    for place in 0..7usize {
        let end = bytes_of(rt.alloc(), &REQUESTS[..place + 1])?.len();
        for bytes in [begin, begin.saturating_add(1), end.saturating_sub(1), end] {
            let cut = input.as_slice().get(..bytes).unwrap_or(&[]);
            let came = serving(&rt, rt.alloc(), cut, Sent::Fails, ALL)?;
            let whole = if bytes == end { place + 1 } else { place };
            let output = bytes_of(rt.alloc(), &ANSWERS[..whole])?;
            assert_equal!(rt; came.0, Err(WireFault::ReadFault); bytes);
            assert_equal!(rt; came.1.as_slice(), output.as_slice(); bytes);
        }
        begin = end;
    }
    Ok(())
}

// Hosts 1 and 2 wait for each other. Host 2 has two more commands, which are slow, and a move comes behind all.
static MEETING: &'static [&'static str] = &[
    "01 01 01 01 00000000 00000011 00000000 ff",
    "01 02 02 01 00000000 00000021 00000000 ff",
    "01 02 02 01 00000000 00000022 00000000 fe",
    "01 02 02 01 00000000 00000023 00000000 fe",
    "02 00 00 08 00000000 00000031 00000000 000003e9 00000002",
];

// The answers, but for that to host 1, which may stand before, between or behind those to host 2.
static TO_HOST_2: [&'static str; 3] = [
    "01 02 00 00 00000000 00000021 00000000",
    "01 02 00 00 00000000 00000022 00000000",
    "01 02 00 00 00000000 00000023 00000000",
];

const TO_HOST_1: &str = "01 01 00 00 00000000 00000011 00000000";

const MOVED: &str = "02 00 00 00 00000004 00000031 00000000 00000004";

// A move that comes before all, and its answer.
const FIRST: &str = "02 00 00 08 00000000 00000030 00000000 000003e9 00000002";

const FIRST_MOVED: &str = "02 00 00 00 00000004 00000030 00000000 00000000";

// Behind a move too they have threads of their own.
#[test]
fn hosts_wait_for_each_other(rt: HostRuntime) -> Result<(), Fail> {
    for (first, answer) in [("", ""), (FIRST, FIRST_MOVED)] {
        let mut input = bytes_of(rt.alloc(), &[first])?;
        input.extend_from_slice(bytes_of(rt.alloc(), MEETING)?.as_slice())?;
        let came = serving(&rt, rt.alloc(), input.as_slice(), Sent::AtOnce, ALL)?;
        assert_equal!(rt; came.0, Ok(()); first);
        let mut is_there = false;
        for place in 0..4usize {
            let mut output = bytes_of(rt.alloc(), &[answer])?;
            let (before, behind) = (&TO_HOST_2[..place], &TO_HOST_2[place..]);
            output.extend_from_slice(bytes_of(rt.alloc(), before)?.as_slice())?;
            output.extend_from_slice(bytes_of(rt.alloc(), &[TO_HOST_1])?.as_slice())?;
            output.extend_from_slice(bytes_of(rt.alloc(), behind)?.as_slice())?;
            output.extend_from_slice(bytes_of(rt.alloc(), &[MOVED])?.as_slice())?;
            is_there = is_there || came.1.as_slice() == output.as_slice();
        }
        assert_holds!(rt; is_there; first);
    }
    Ok(())
}

// A command of host 1 waits for one of host 2, which comes behind 1,500 others: no round ends between.
#[test]
fn a_slow_host_ends_no_round(rt: HostRuntime) -> Result<(), Fail> {
    let between = bytes_of(rt.alloc(), &["01 02 02 00 00000000 00000022 00000000"])?;
    let mut input = bytes_of(rt.alloc(), &[MEETING[0]])?;
    for _ in 0..1_500u32 {
        input.extend_from_slice(between.as_slice())?;
    }
    input.extend_from_slice(bytes_of(rt.alloc(), &[MEETING[1]])?.as_slice())?;
    let came = serving(&rt, rt.alloc(), input.as_slice(), Sent::AtOnce, ALL)?;
    assert_equal!(rt; (came.0, came.2), (Ok(()), 1_502));
    Ok(())
}

// Slow commands of host 1: one is carried out and one waits as the reader asks for another.
#[test]
fn the_reader_waits_for_a_slow_host(rt: HostRuntime) -> Result<(), Fail> {
    let input = bytes_of(
        rt.alloc(),
        &["01 01 01 01 00000000 00000001 00000000 fe"; 8],
    )?;
    let (end, _, done, _, most) = serving(&rt, rt.alloc(), input.as_slice(), Sent::AtOnce, ALL)?;
    assert_equal!(rt; (end, done), (Ok(()), 8));
    assert_holds!(rt; most <= 2; most);
    Ok(())
}

// Of the many requests few are read, and all of these are carried out.
#[test]
fn nothing_more_is_read_once_a_write_failed(rt: HostRuntime) -> Result<(), Fail> {
    let input = crowd(rt.alloc(), 100, false)?;
    let came = serving(&rt, rt.alloc(), input.as_slice(), Sent::AtOnce, 100)?;
    assert_equal!(rt; (came.0, came.1.len()), (Err(WireFault::WriteFault), 100));
    assert_equal!(rt; came.2, came.3);
    assert_holds!(rt; came.3 < 6_400; came.3);
    Ok(())
}
