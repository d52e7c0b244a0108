//! The counter of reads, and the limits of a script.
use crate::wires::{Plan, Wire, WireReader};
use std::alloc::Global;
use std::io::ErrorKind;
use test_assertions::assert_equal;
use vtl_script::line_readers::{Found, LineReader};
use vtl_script::script_limits::{within_bytes, within_reads};

const TWO_PHASES: &[u8] = b"1 1 000000000000\n--\n2 1 000000000000\n";

// The most bytes of a read, and the read that is interrupted.
static READS: &'static [(usize, u32)] = &[(usize::MAX, 2), (5, 1), (5, 4), (5, 9), (1, 38)];

// How many reads are counted until the text has ended.
fn counted(alloc: Global, reader: &mut WireReader) -> u64 {
    let mut lines = LineReader::new(alloc);
    for _ in 0..10 {
        match lines.find(reader) {
            Ok(Found::Line(count)) => lines.take_up(count),
            _ => break,
        }
    }
    lines.reads()
}

#[test]
fn reads_are_counted(rt: HostRuntime) {
    for &(piece, call) in READS {
        let plan = Plan::read(piece, call, ErrorKind::Interrupted, 1);
        let wire = Wire::new();
        let mut reader = WireReader::new(TWO_PHASES, plan, &wire);
        let reads = counted(rt.alloc(), &mut reader);
        assert_equal!(rt; reads, u64::from(reader.calls()); piece);
    }
}

// The bytes of a script, how many more, and whether they are within the limit.
static BYTES: &'static [(u64, usize, bool)] = &[
    (0, 65_536, true),
    (2_147_483_647, 1, true),
    (2_147_483_648, 0, true),
    (2_147_483_647, 2, false),
    (2_147_483_648, 1, false),
];

// The reads of a script, and whether one more is within the limit.
static ONE_MORE: &'static [(u64, bool)] = &[
    (0, true),
    (4_294_967_295, true),
    (4_294_967_296, false),
];

#[test]
fn limits_of_bytes_and_reads(rt: HostRuntime) {
    for &(bytes, more, is_within) in BYTES {
        assert_equal!(rt; within_bytes(bytes, more), is_within; (bytes, more));
    }
    for &(reads, is_within) in ONE_MORE {
        assert_equal!(rt; within_reads(reads), is_within; reads);
    }
}
