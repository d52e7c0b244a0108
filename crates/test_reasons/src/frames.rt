//! Frames that are refused, and the lines that say why, written by hand from FORMATS.md (docs). The others are in
//! `checks/served_frames.py`.
use explanations::Explanation;
use frame_reasons::FrameNotes;
use std::alloc::{AllocError, Global};
use std::process::Abort;
use std::test::Fail;
use test_assertions::{assert_equal, assert_holds};

// Two frames that are taken: a command with no data, and one with three bytes of them.
const TAKEN: &[u8] = b"\x01\x01\x01\x06\0\0\0\0\0\0\0\x07\0\0\0\0\0\0\0\0\0\0\
    \x01\x01\x01\x06\0\0\0\x03\0\0\0\x08\0\0\0\0\x0a\0\0\0\x03\0abc";

// The kind of a frame, its host, its drive, the bytes before its data, those of its data, and the last four bytes of
// its header as one number.
type Head = (u8, u8, u8, u8, u32, u32);

const KINDS: &str = "1 a command, 2 a move, 3 an inventory";

const HOSTS: &str = "1 to 64, 0 in a move and in an inventory";

const DRIVES: &str = "1 to 16, 0 in a move and in an inventory";

const FRONTS: &str = "0 to 16 in a command, 8 in a move, 0 in an inventory";

const LENGTHS: &str = "0 to 1100000 in a command, 0 in a move and in an inventory";

const CONFIGURED: &str = "a drive that is configured";

const DATA: &str = "4278190080 bytes of data";

// A header, what is refused of it, the byte, and what is allowed.
static REFUSED: &'static [(Head, &'static str, u64, &'static str)] = &[
    ((0, 1, 1, 0, 0, 0), "kind 0", 0, KINDS),
    ((4, 1, 1, 0, 0, 0), "kind 4", 0, KINDS),
    ((1, 65, 1, 0, 0, 0), "host 65", 1, HOSTS),
    ((2, 1, 0, 8, 0, 0), "host 1", 1, HOSTS),
    ((1, 64, 17, 0, 0, 0), "drive 17", 2, DRIVES),
    // in which no field is wrong
    ((1, 1, 16, 0, 0, 0), "drive 16", 2, CONFIGURED),
    ((3, 0, 0, 1, 0, 0), "1 byte before the data", 3, FRONTS),
    ((1, 1, 1, 6, 0xff00_0000, 0), DATA, 4, LENGTHS),
    ((2, 0, 0, 8, 0, 0x0101), "a byte that is not 0", 14, "0"),
    // of several wrong fields the first
    ((2, 0, 0, 9, 1, 1), "9 bytes before the data", 3, FRONTS),
];

// Beginnings of frames, in each of which the input ends.
static CUT_OFF: &'static [&'static [u8]] = &[
    b"\x01",
    b"\x09\x09\x09",
    b"\x01\x01\x01\x06\0\0\0\0\0\0\0\x09\0\0\0",
    b"\x01\x01\x01\x01\0\0\0\0\0\0\0\x09\0\0\0\0",
    // 1,100,000 bytes of data, and 1 byte of them
    b"\x01\x40\x10\0\0\x10\xc8\xe0\0\0\0\x09\0\0\0\0a",
    b"\x02\0\0\x08\0\0\0\0\0\0\0\x09\0\0\0\0\x01\x02\x03\x04\x05\x06\x07",
];

// The bytes of a header.
fn header_of(head: &Head) -> [u8; 16] {
    let (kind, host, drive, front, data, last) = *head;
    let [a, b, c, d] = data.to_be_bytes();
    let [w, x, y, z] = last.to_be_bytes();
    [kind, host, drive, front, a, b, c, d, 0, 0, 0, 9, w, x, y, z]
}

// The lines for bytes that come behind the two frames, in one piece or byte by byte.
fn lines_of(alloc: Global, bytes: &[u8], is_whole: bool) -> Result<Explanation, AllocError> {
    let mut notes = FrameNotes::new();
    for part in [TAKEN, bytes] {
        if is_whole {
            notes.add(part);
        } else {
            for byte in part {
                notes.add(&[*byte]);
            }
        }
    }
    let mut lines = Explanation::new(alloc);
    if let Some(reason) = notes.reason() {
        reason.add_to(alloc, &mut lines)?;
    }
    Ok(lines)
}

// Bytes behind the two frames have these lines, and one that says what to do.
fn has(rt: &impl Abort, alloc: Global, bytes: &[u8], begin: &str) -> Result<(), Fail> {
    let wanted = format!(in alloc;
        "{begin}\nto do: correct what sends the frame; those before it were answered\n"
    )?;
    for is_whole in [true, false] {
        let lines = lines_of(alloc, bytes, is_whole)?;
        assert_equal!(*rt; lines.as_str(), wanted.as_str(); is_whole);
    }
    Ok(())
}

#[test]
fn the_first_wrong_field_is_named(rt: HostRuntime) -> Result<(), Fail> {
    let alloc = rt.alloc();
    for (head, refused, byte, allowed) in REFUSED {
        let begin = format!(in alloc;
            "refused: {refused}\nwhere: frame 3, byte {byte} of its header\nallowed: {allowed}"
        )?;
        has(&rt, alloc, &header_of(head), begin.as_str())?;
    }
    assert_holds!(rt; FrameNotes::new().reason().is_none());
    Ok(())
}

#[test]
fn frames_that_are_cut_off(rt: HostRuntime) -> Result<(), Fail> {
    let begin =
        "refused: the input ends inside the frame\nwhere: frame 3\nallowed: an end behind a frame";
    for &bytes in CUT_OFF {
        has(&rt, rt.alloc(), bytes, begin)?;
    }
    Ok(())
}
