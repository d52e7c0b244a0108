//! The calls of a medium, over any medium and over one in memory.
ghost use Rattle.std.specs.Prelude.{◌≡◌, OnOk, true};

use crate::volumes::{Add, make_change};
use std::alloc::Global;
use std::process::Abort;
use std::test::Fail;
use test_assertions::{assert_equal, assert_holds};
use volume_core::{Catalog, Kind, Medium, MediumError, PlainMedium, Refusal, Turn};
use vtl_base::{Bytes, ObjNo};

/// A call of a medium with one partition. A block is of sevens.
#[derive(Clone, Copy, Debug)]
pub enum Ask {
    // As a change, after this many objects.
    Accept(ObjNo, Add),
    // By the call of its own.
    Put(ObjNo, usize),
    Marks(ObjNo, u32),
    Erase(ObjNo),
    // The block with a number, and its expected length.
    Fetch(ObjNo, usize),
    Settle,
    Turn,
    // Parks the medium, and wakes it where that succeeds.
    Reopen,
    Wake,
    // Whether a change with a block of this size has room.
    Room(u32),
    // Whether a change with a block of this size is accepted without the device.
    Alone(u32),
}

/// Its answer.
#[derive(Clone, Copy, PartialEq, Eq, Debug)]
pub enum Answer {
    Done,
    Not(MediumError),
    Turned(Turn),
    Has(bool),
}

fn as_answer(returned: Result<(), MediumError>) -> Answer {
    match returned {
        Ok(()) => Answer::Done,
        Err(error) => Answer::Not(error),
    }
}

#[tactic(auto, using(crate::proofs::AwakeLemmas::accepts_awake))]
fn take<M: Medium>(alloc: Global, medium: &mut M, ask: Ask) -> Result<Answer, Fail>
    requires awake { (M.state medium.old).awake ≡ true }
    requires hand { (m : M) → M.below.at_hand m }
    ensures { OnOk result ((M.state medium.new).awake ≡ true) }
{
    Ok(as_answer(match ask {
        Ask::Accept(at, add) => match medium.accept(make_change(alloc, 0, at, add)?) {
            Ok(()) => Ok(()),
            Err(refused) => Err(refused.error),
        },
        Ask::Put(at, length) => { medium.put(0, at, Bytes::from_vec(vec![in alloc; 7u8; length]?)) }
        Ask::Marks(at, count) => medium.marks(0, at, count),
        Ask::Erase(at) => medium.erase(0, at),
        _ => Ok(()),
    }))
}

#[tactic(auto, using(crate::proofs::AwakeLemmas::fetches_awake))]
fn fetch<M: Medium>(
    rt: &impl Abort,
    alloc: Global,
    medium: &mut M,
    at: ObjNo,
    length: usize,
) -> Result<Answer, Fail>
    requires awake { (M.state medium.old).awake ≡ true }
    requires hand { (m : M) → M.below.at_hand m }
    ensures { OnOk result ((M.state medium.new).awake ≡ true) }
{
    let mut bytes = vec![in alloc; 1u8, 2, 3]?;
    if medium.kind_at(0, at) != Some(Kind::Block) {
        assert_holds!(rt; false; at);
        return Ok(Answer::Done);
    }
    let fetched = medium.fetch(0, at, &mut bytes);
    if fetched.is_ok() {
        let wanted = vec![in alloc; 7u8; length]?;
        assert_equal!(rt; bytes.as_slice(), wanted.as_slice(); at);
    }
    Ok(as_answer(fetched))
}

#[tactic(auto, using(crate::proofs::AwakeLemmas::parks_awake, crate::proofs::AwakeLemmas::wakes_awake))]
fn reopen<M: Medium>(medium: &mut M) -> Result<Answer, Fail>
    requires awake { (M.state medium.old).awake ≡ true }
    requires hand { (m : M) → M.below.at_hand m }
    ensures { OnOk result ((M.state medium.new).awake ≡ true) }
{
    if let Err(error) = medium.park() {
        return Ok(Answer::Not(error));
    }
    medium.wake()?;
    Ok(Answer::Done)
}

#[tactic(auto, using(crate::proofs::AwakeLemmas::stays_awake))]
fn wake<M: Medium>(medium: &mut M) -> Result<Answer, Fail>
    requires awake { (M.state medium.old).awake ≡ true }
    requires hand { (m : M) → M.below.at_hand m }
    ensures { OnOk result ((M.state medium.new).awake ≡ true) }
{
    Ok(as_answer(medium.wake()))
}

#[tactic(auto, using(crate::proofs::AwakeLemmas::settles_awake, crate::proofs::AwakeLemmas::turns_awake))]
fn answered<M: Medium>(
    rt: &impl Abort,
    alloc: Global,
    medium: &mut M,
    ask: Ask,
) -> Result<Answer, Fail>
    requires awake { (M.state medium.old).awake ≡ true }
    requires hand { (m : M) → M.below.at_hand m }
    ensures { OnOk result ((M.state medium.new).awake ≡ true) }
{
    match ask {
        Ask::Fetch(at, length) => fetch(rt, alloc, medium, at, length),
        Ask::Settle => Ok(as_answer(medium.settle())),
        Ask::Turn => Ok(Answer::Turned(medium.flush_turn())),
        Ask::Reopen => reopen(medium),
        Ask::Wake => wake(medium),
        Ask::Room(bytes) => Ok(Answer::Has(medium.has_room_for(bytes))),
        Ask::Alone(bytes) => Ok(Answer::Has(medium.takes_alone(bytes))),
        _ => take(alloc, medium, ask),
    }
}

/// A call, the answer, and then: changes pending, whether it has failed, objects.
pub type Row = (Ask, Answer, usize, bool, u32);

/// The calls of these rows, one after another, have these answers.
pub fn assert_rows<M: Medium>(
    rt: &impl Abort,
    alloc: Global,
    medium: &mut M,
    rows: &[Row],
) -> Result<(), Fail>
    requires awake { (M.state medium.old).awake ≡ true }
    requires hand { (m : M) → M.below.at_hand m }
    ensures { OnOk result ((M.state medium.new).awake ≡ true) }
{
    for (ask, wanted, pending, failed, count) in rows {
        let given = answered(rt, alloc, medium, *ask)?;
        assert_equal!(rt; given, *wanted; ask);
        let left = (medium.pending(), medium.has_failed(), medium.count(0));
        assert_equal!(rt; left, (*pending, *failed, *count); ask);
    }
    Ok(())
}

pub const PAST_END: Answer = Answer::Not(MediumError::Refused(Refusal::PastEnd));

static IN_MEMORY: &'static [Row] = &[
    (Ask::Put(0, 5), Answer::Done, 0, false, 1),
    (Ask::Marks(1, 2), Answer::Done, 0, false, 3),
    (Ask::Erase(2), Answer::Done, 0, false, 2),
    (Ask::Accept(2, Add::Block(9)), Answer::Done, 0, false, 3),
    (Ask::Marks(4, 1), PAST_END, 0, false, 3),
    (Ask::Settle, Answer::Done, 0, false, 3),
    (Ask::Turn, Answer::Turned(Turn::Idle), 0, false, 3),
    (Ask::Fetch(0, 5), Answer::Done, 0, false, 3),
    (Ask::Wake, Answer::Done, 0, false, 3),
    (Ask::Reopen, Answer::Done, 0, false, 3),
    (Ask::Fetch(2, 9), Answer::Done, 0, false, 3),
    (Ask::Room(1_048_576), Answer::Has(true), 0, false, 3),
    (Ask::Alone(1_048_576), Answer::Has(true), 0, false, 3),
    (Ask::Accept(0, Add::Nothing), Answer::Done, 0, false, 0),
];

#[test]
fn a_medium_in_memory_answers(rt: HostRuntime) -> Result<(), Fail> {
    let alloc = rt.alloc();
    let mut medium = PlainMedium::new(alloc, &[4_096])?;
    assert_equal!(rt; (medium.parts(), medium.capacity(0), medium.used(0, 1)), (1, 4_096, 0));
    assert_rows(&rt, alloc, &mut medium, IN_MEMORY)
}
