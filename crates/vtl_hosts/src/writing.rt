//! The thread that writes the answers, which come from the hosts' rings.
ghost use Rattle.std.specs.Prelude.{false};
ghost use Rattle.vtl_hosts.specs.Inner.Writing.{WritesAll, WritesUnlessFailed, WritesNext};

use crate::bells::Bells;
use rtrb::Consumer;
use std::io::Write;
use std::sync::Wait;
use vtl_wire::{Answer, write_if_fits};

// Writes an answer, unless a write failed before. Returns whether a write has failed.
fn write_unless<W: Write>(writer: &mut W, failed: bool, answer: &Answer) -> bool
    ensures { WritesUnlessFailed (W.contents writer.old) failed (W.contents writer.new) result answer.now }
{
    if failed {
        return true;
    }
    write_if_fits(writer, answer).is_err()
}

// Writes the next answer of a host, if there is one; returns false where there is none. After a failed write nothing
// more is written.
fn write_next<W: Write, R: Wait>(
    rt: &R,
    bells: &Bells,
    place: usize,
    ring: &mut Consumer<Answer>,
    writer: &mut W,
    failed: &mut bool,
) -> bool
    ensures { WritesNext ring.old (W.contents writer.old) failed.old ring.new (W.contents writer.new) failed.new
        result }
{
    let Ok(answer) = ring.pop() else {
        return false;
    };
    bells.ring_room(rt, place);
    *failed = write_unless(writer, *failed, &answer);
    if *failed {
        bells.stop(rt);
    }
    true
}

// Writes the oldest answer. Returns false where there is none.
fn write_first<W: Write, R: Wait>(
    rt: &R,
    bells: &Bells,
    writer: &mut W,
    failed: &mut bool,
    rings: &mut [Consumer<Answer>],
) -> bool
    ensures { WritesAll rings.old (W.contents writer.old) failed.old rings.new (W.contents writer.new) failed.new }
{
    let Some(place) = bells.next_answer(rt) else {
        return false;
    };
    if place < rings.len() {
        write_next(rt, bells, place, &mut rings[place], writer, failed);
    }
    true
}

/// Takes the hosts' answers and writes them, in the order in which they were made, until nothing more comes. After a
/// failed write the other answers are dropped. Returns true where a write failed.
pub(crate) fn write_round<W: Write, R: Wait>(
    rt: &R,
    bells: &Bells,
    writer: &mut W,
    rings: &mut [Consumer<Answer>],
) -> bool
    ensures { WritesAll rings.old (W.contents writer.old) false rings.new (W.contents writer.new) result }
{
    bells.begin(rt);
    let mut failed = false;
    let mut is_last = false;
    for _ in rt.forever() {
        let count = bells.writer.count(rt);
        if !write_first(rt, bells, writer, &mut failed, rings) {
            if is_last {
                return failed;
            }
            is_last = bells.writer.wait_for_more(rt, count);
        }
    }
    unreachable!()
}
