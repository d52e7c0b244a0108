//! A library that threads share, whose hosts are served over one pipe, over frames that were worked by hand.
use crate::frames::{bytes_of, row};
use element_slots::Slots;
use library::{Gate, RingRow, Unopened};
use std::alloc::Global;
use std::io::{Read, Write};
use std::marker::{Brand, Send, Sync};
use std::process::Abort;
use std::sync::Wait;
use std::sync::atomic::{AtomicU32, Ordering};
use std::sync::ledger::Blank;
use std::test::Fail;
use std::thread::Threads;
use std::time::{Clock, Duration};
use std::{io, thread};
use tape_disk::MemDisk;
use test_assertions::assert_equal;
use test_gates::{OpenGate, count_fresh, hosts};
use volume_core::Turn;
use vtl_base::Barcode;
use vtl_serve::{Label, Labels, serve_library};
use vtl_wire::WireFault;

// Drives 1 and 2 are loaded with the cartridges A1 and B2. An inventory; a move of B2 to slot 1001; a move of nothing
// to drive 2; an inventory; a move of B2 to drive 1, which is full; and a TEST UNIT READY of host 5 to drive 1.
static REQUESTS: &'static [&'static str] = &[
    "03 00 00 00 00000000 00000001 00000000",
    "02 00 00 08 00000000 00000002 00000000 00000002 000003e9",
    "02 00 00 08 00000000 00000003 00000000 000003ea 00000002",
    "03 00 00 00 00000000 00000004 00000000",
    "02 00 00 08 00000000 00000005 00000000 000003e9 00000001",
    "01 05 01 06 00000000 00000006 00000000 000000000000",
];

// The heads of the answers: 258 entries of 20 bytes; GOOD; 5, 3B/0E; the same entries; 5, 3B/0D; and 6, 29/00.
static ANSWERS: &'static [&'static str] = &[
    "03 00 00 00 00001428 00000001 00000000",
    "02 00 00 00 00000000 00000002 00000000",
    "02 00 02 12 00000000 00000003 00000000 700005000000000a000000003b0e00000000",
    "03 00 00 00 00001428 00000004 00000000",
    "02 00 02 12 00000000 00000005 00000000 700005000000000a000000003b0d00000000",
    "01 05 02 12 00000000 00000006 00000000 700006000000000a00000000290000000000",
];

// Adds the entries where A1 is in drive 1, and B2 here.
fn add_entries(bytes: &mut Vec<u8>, second: u32) -> Result<(), Fail> {
    for address in (1..3u32).chain(1001..1257u32) {
        let (barcode, pad) = match address {
            1 => (b"A1", b' '),
            _ if address == second => (b"B2", b' '),
            _ => (b"\0\0", 0),
        };
        bytes.extend_from_slice(&address.to_be_bytes())?;
        bytes.extend_from_slice(barcode)?;
        bytes.extend_from_slice(&[pad; 14])?;
    }
    Ok(())
}

// The labels of both cartridges.
fn labels(alloc: Global) -> Result<Labels, Fail> {
    let mut labels = Vec::new(alloc);
    for (address, barcode) in [(1, b"A1"), (2, b"B2")] {
        let barcode = Barcode::parse(barcode)?;
        labels.push(Label { address, barcode })?;
    }
    Ok(Labels::from_vec(labels))
}

// Serves drives that then count so, and 64 hosts, for what a reader gives, and returns how that ended.
fn serving_to<R: Threads + Wait + Abort + Clock + Sync, G: Gate + Sync, I: Read, W: Write + Send>(
    rt: &R,
    alloc: Global,
    counts: [Option<u64>; 16],
    gate: &G,
    reader: &mut I,
    writer: &mut W,
) -> Result<Result<(), WireFault>, Fail> {
    let count = counts.iter().filter(|count| count.is_some()).count();
    let bays = row(alloc, count.min(16) as u8)?;
    let drives = count_fresh(bays.as_slice())?;
    let rings = RingRow::of_drives(alloc, bays.as_slice())?;
    let hosts = hosts(alloc, 64)?;
    let parts = Unopened {
        bays,
        rings,
        slots: Slots::new(alloc)?,
        hosts: hosts.as_slice(),
        bay_ledger: Blank::new(drives),
        host_ledger: Blank::new(64),
    };
    let served = serve_library::<MemDisk, Brand, Brand, R, G, I, W>(
        rt,
        alloc,
        parts,
        labels(alloc)?,
        gate,
        reader,
        writer,
    );
    match served {
        Ok(served) => {
            assert_equal!(rt; served.finished.counts, Ok(counts));
            Ok(served.outcome)
        }
        Err(_) => Err(Fail::from("no library")),
    }
}

#[test]
fn moves_and_inventories_are_served(rt: HostRuntime) -> Result<(), Fail> {
    let input = bytes_of(rt.alloc(), REQUESTS)?;
    let mut output = Vec::new(rt.alloc());
    for (place, answer) in ANSWERS.iter().enumerate() {
        output.extend_from_slice(bytes_of(rt.alloc(), &[*answer])?.as_slice())?;
        match place {
            0 => add_entries(&mut output, 2)?,
            3 => add_entries(&mut output, 1001)?,
            _ => {}
        }
    }
    let mut counts = [None; 16];
    counts[0] = Some(0);
    counts[1] = Some(0);
    let mut reader = input.as_slice();
    let mut out = Vec::new(rt.alloc());
    let end = serving_to(&rt, rt.alloc(), counts, &OpenGate, &mut reader, &mut out)?;
    assert_equal!(rt; end, Ok(()));
    assert_equal!(rt; out.as_slice(), output.as_slice());
    Ok(())
}

// How many turns began, and how many answers were flushed.
#[derive(Drop)]
struct Signs {
    turns: AtomicU32,
    answers: AtomicU32,
}

impl Signs {
    // Waits until there are so many turns and answers.
    fn wait<R: Wait + Clock>(&self, rt: &R, turns: u32, answers: u32) {
        for _ in rt.forever() {
            let (begun, flushed) = (&self.turns, &self.answers);
            if begun.load(Ordering::SeqCst) >= turns && flushed.load(Ordering::SeqCst) >= answers {
                break;
            }
            thread::sleep(rt, Duration::from_millis(1));
        }
    }
}

// A gate that stands in the 17th turn, the first behind those of all flushers, until five answers are out.
#[derive(Drop)]
struct Standing<'a, R>(&'a R, &'a Signs);

impl<R: Wait + Clock> Gate for Standing<'_, R> {
    fn before_turn(&self) -> bool {
        true
    }

    fn in_turn(&self) {
        if self.1.turns.fetch_add(1, Ordering::SeqCst) == 16 {
            self.1.wait(self.0, 0, 5);
        }
    }

    fn after_turn(&self, _turn: Turn) {}
}

// Sends requests, each once its step has come, and some milliseconds later.
#[derive(Drop)]
struct Stepping<'a, R> {
    rt: &'a R,
    signs: &'a Signs,
    steps: &'a [(usize, u32, u32)],
    rest: &'a [u8],
    left: usize,
    // How many turns had begun before the first request.
    begun: u32,
}

impl<R: Wait + Clock> Read for Stepping<'_, R> {
    fn read(&mut self, buf: &mut [u8]) -> io::Result<usize> {
        if self.left == 0 {
            if let [(length, turns, answers), steps @ ..] = self.steps {
                self.signs.wait(self.rt, *turns, *answers);
                thread::sleep(self.rt, Duration::from_millis(20));
                if self.begun == 0 {
                    self.begun = self.signs.turns.load(Ordering::SeqCst);
                }
                self.left = *length;
                self.steps = steps;
            }
        }
        let count = self.left.min(self.rest.len()).min(buf.len());
        buf[..count].copy_from_slice(&self.rest[..count]);
        self.rest = &self.rest[count..];
        self.left = self.left.saturating_sub(count);
        Ok(count)
    }
}

// Takes the answers, and counts the flushes.
#[derive(Drop)]
struct Counting<'a>(&'a Signs, Vec<u8>);

impl Write for Counting<'_> {
    fn write(&mut self, buf: &[u8]) -> io::Result<usize> {
        self.1.extend_from_slice(buf)?;
        Ok(buf.len())
    }

    fn flush(&mut self) -> io::Result<()> {
        let _ = self.0.answers.fetch_add(1, Ordering::SeqCst);
        Ok(())
    }
}

// Each of 16 drives has a flusher, which takes a turn. A move is refused. Hosts take their power on condition. Host 1
// writes a block to drive 1, whose flusher then stands in a turn with the disk's half of the drive locked. Host 1
// sends a REWIND to drive 1, which waits for that half, and host 2 one command to drive 2, which is answered first.
static SENT: &'static [&'static str] = &[
    "02 00 00 08 00000000 00000007 00000000 000003ea 000003eb",
    "01 01 01 06 00000000 00000001 00000000 000000000000",
    "01 02 02 06 00000000 00000002 00000000 000000000000",
    "01 01 01 06 00000001 00000003 00000000 0a0000000100 78",
    "01 01 01 06 00000000 00000004 00000000 010000000000",
    "01 02 02 06 00000000 00000005 00000000 000000000000",
];

static TAKEN: &'static [&'static str] = &[
    "02 00 02 12 00000000 00000007 00000000 700005000000000a000000003b0e00000000",
    "01 01 02 12 00000000 00000001 00000000 700006000000000a00000000290000000000",
    "01 02 02 12 00000000 00000002 00000000 700006000000000a00000000290000000000",
    "01 01 00 00 00000000 00000003 00000000",
    "01 02 00 00 00000000 00000005 00000000",
    "01 01 00 00 00000000 00000004 00000000",
];

// When each is sent: its length, how many turns have begun before, and how many answers were flushed.
static STEPS: &'static [(usize, u32, u32)] = &[
    (24, 16, 0),
    (22, 16, 1),
    (22, 16, 2),
    (23, 16, 3),
    (22, 17, 4),
    (22, 17, 4),
];

#[test]
fn a_drive_answers_while_another_stands_in_its_turn(rt: HostRuntime) -> Result<(), Fail> {
    let (input, output) = (bytes_of(rt.alloc(), SENT)?, bytes_of(rt.alloc(), TAKEN)?);
    let signs = Signs {
        turns: AtomicU32::new(0),
        answers: AtomicU32::new(0),
    };
    let gate = Standing(&rt, &signs);
    let mut reader = Stepping {
        rt: &rt,
        signs: &signs,
        steps: STEPS,
        rest: input.as_slice(),
        left: 0,
        begun: 0,
    };
    let mut writer = Counting(&signs, Vec::new(rt.alloc()));
    let mut counts = [Some(0); 16];
    counts[0] = Some(1);
    let end = serving_to(&rt, rt.alloc(), counts, &gate, &mut reader, &mut writer)?;
    assert_equal!(rt; end, Ok(()));
    assert_equal!(rt; reader.begun, 16);
    assert_equal!(rt; writer.1.as_slice(), output.as_slice());
    Ok(())
}
