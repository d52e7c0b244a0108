//! Requests and answers that are written, and writes that fail.
use crate::frames::{KINDS, Kind, all_of, bytes, frames_of};
use crate::pipes::{PipeReader, PipeWriter, Plan};
use crate::readings::plans;
use std::alloc::Global;
use std::test::Fail;
use test_assertions::{assert_equal, assert_holds};
use vtl_wire::{WireFault, read_answers, read_requests, write_answer, write_request};

// Writes what was read of a frame.
fn writing(
    alloc: Global,
    kind: Kind,
    frame: &[u8],
    writer: &mut PipeWriter,
) -> Result<(), WireFault> {
    let mut reader = PipeReader::new(frame, Plan::pieces(usize::MAX));
    match kind {
        Kind::Requests => {
            let requests = read_requests(alloc, &mut reader)?;
            for request in &requests {
                if request.fits_frame() {
                    write_request(writer, request)?;
                }
            }
        }
        Kind::Answers => {
            let answers = read_answers(alloc, &mut reader)?;
            for answer in &answers {
                if answer.fits_frame() {
                    write_answer(writer, answer)?;
                }
            }
        }
    }
    Ok(())
}

// Each frame, and all of a kind.
#[test]
fn each_frame_written(rt: HostRuntime) -> Result<(), Fail> {
    for kind in KINDS {
        let (all, _) = all_of(rt.alloc(), kind)?;
        for place in 0..19usize {
            let frame = match frames_of(kind).get(place) {
                Some(line) => bytes(rt.alloc(), line.as_bytes())?,
                None => all.clone()?,
            };
            for piece in [1, 3, 16, usize::MAX] {
                let mut writer = PipeWriter::new(rt.alloc(), Plan::pieces(piece));
                writing(rt.alloc(), kind, frame.as_slice(), &mut writer)?;
                assert_equal!(rt; writer.written.as_slice(), frame.as_slice(); (place, piece));
                assert_equal!(rt; writer.flushed, frame.len(); (place, piece));
            }
        }
    }
    Ok(())
}

// Each call fails in turn, writes and the flush: it is the last call, and what was written is a beginning of the frame.
// A write that is interrupted is made again. A writer that takes nothing is a fault.
#[test]
fn writes_that_fail(rt: HostRuntime) -> Result<(), Fail> {
    for kind in KINDS {
        for line in frames_of(kind) {
            let frame = bytes(rt.alloc(), line.as_bytes())?;
            let mut writer = PipeWriter::new(rt.alloc(), Plan::pieces(7));
            writing(rt.alloc(), kind, frame.as_slice(), &mut writer)?;
            let calls = writer.calls;
            for call in 1..calls.saturating_add(1) {
                for (is_passed, plan) in plans(7, call) {
                    let mut writer = PipeWriter::new(rt.alloc(), plan);
                    let end = writing(rt.alloc(), kind, frame.as_slice(), &mut writer);
                    // a flush is not made again
                    let is_whole = is_passed && call < calls;
                    let wanted = if is_whole {
                        Ok(())
                    } else {
                        Err(WireFault::WriteFault)
                    };
                    assert_equal!(rt; end, wanted; (line, call));
                    let made = if is_whole {
                        calls.saturating_add(1)
                    } else {
                        call
                    };
                    assert_equal!(rt; writer.calls, made; (line, call));
                    assert_equal!(rt; writer.flushed, if is_whole { frame.len() } else { 0 }; call);
                    assert_holds!(rt; frame.as_slice().starts_with(writer.written.as_slice()); (line, call));
                }
            }
            let mut writer = PipeWriter::new(rt.alloc(), Plan::pieces(0));
            let end = writing(rt.alloc(), kind, frame.as_slice(), &mut writer);
            assert_equal!(rt; (end, writer.written.as_slice().len()), (Err(WireFault::WriteFault), 0); line);
        }
    }
    Ok(())
}
