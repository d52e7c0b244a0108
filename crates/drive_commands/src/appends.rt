//! A change at the position, which is then after what the change adds.
ghost use Rattle.std.specs.Prelude.{◌≡◌, [], true, false, None};
ghost use Rattle.vtl_base.specs.Below.{Advances};
ghost use Rattle.volume_core.specs.Volume.{is_well_formed, refusal_of};
ghost use Rattle.volume_core.specs.Medium.{block_bytes, volume_of};
ghost use Rattle.volume_core.specs.Stores.{Stores};
ghost use Rattle.drive_commands.specs.State.{IsPositioned, mounted};
ghost use Rattle.drive_commands.specs.Append.{AppendWork, amount_of, done_reply, is_warned};
ghost use Rattle.drive_commands.specs.Execute.{is_device_fault};
ghost use Rattle.drive_commands.specs.Inner.Carries.{IsOnWorkingMedium, Tallies};
ghost use Rattle.drive_commands.specs.Inner.Appending.{IsAt, refused_as, returned_of, SettlesAfter};

use crate::faults::Fault;
use crate::storing::store_pending;
use positioning::{Pos, is_near_end};
use scsi_sense::{Reply, Sense};
use std::alloc::Global;
use volume_core::{Catalog, Change, Medium, MediumError};
use vtl_base::Bytes;

/// The outcome of a change at the position.
#[derive(Drop)]
pub struct Appended {
    /// The answer to the command.
    pub answer: Result<Reply, Fault>,
    /// The change, where the medium did not accept it; None where it did.
    pub returned: Option<Change>,
}

/// Makes `change` at `position`, moves the position past what the change adds, and counts the change in `accepted`.
/// `amount` is how many bytes the block has, or how many filemarks are added; it is reported where the change does not
/// fit. It is None for a change that adds nothing; such a change must fit, and is answered without a warning. Where
/// `settles` is true, all that is pending is stored before the answer. A change that is not accepted is returned.
pub fn append<M: Medium>(
    alloc: Global,
    medium: &mut M,
    position: &mut Pos,
    accepted: &mut u64,
    change: Change,
    amount: Option<u32>,
    settles: bool,
) -> Appended
    requires settled { settles ≡ true → M.below.at_hand medium.old }
    requires room { M.alone medium.old (block_bytes change) ≡ false → M.below.at_hand medium.old }
    requires ready { IsOnWorkingMedium (mounted (M.state medium.old) position.old) }
    requires at { IsAt position.old change }
    requires formed { is_well_formed change ≡ true }
    requires amount { amount ≡ amount_of change }
    requires fits { amount_of change ≡ None
        → refusal_of (volume_of (M.state medium.old)) change ≡ None }
    ensures carries { (tallies : Tallies M.state M.below
        (AppendWork settles change)
        medium.old position.old accepted.old result.answer medium.new position.new accepted.new)
        × (result.returned ≡ returned_of tallies.made change) }
    ensures on { IsPositioned (M.state medium.new) position.new }
{
    match medium.accept(change) {
        Ok(()) => {
            *accepted = accepted.saturating_add(1);
            position.obj = medium.count(position.part);
            let warned = is_warned(medium, *position, amount);
            Appended {
                answer: finish(alloc, medium, warned, settles),
                returned: None,
            }
        }
        Err(refused) => Appended {
            answer: refuse(alloc, refused.error, amount),
            returned: Some(refused.change),
        },
    }
}

// Whether a change is answered by an early warning: it added something, and the position after it is near the end of
// its partition.
fn is_warned<C: Catalog>(medium: &C, position: Pos, amount: Option<u32>) -> bool
    requires { (C.state medium.now).awake ≡ true }
    ensures { result ≡ is_warned amount (volume_of (C.state medium.now)) position }
{
    amount.is_some() && is_near_end(medium, position)
}

// The answer to a change that the medium did not accept, for this error.
fn refuse(alloc: Global, error: MediumError, amount: Option<u32>) -> Result<Reply, Fault>
    ensures { result ≡ refused_as error amount }
{
    match error {
        MediumError::Refused(_) => Ok(Reply::check(
            Sense::volume_overflow(amount),
            Bytes::new(alloc),
        )),
        MediumError::NoMemory => Err(Fault::NoMemory),
        MediumError::SideFull => Err(Fault::SideFull { residue: amount }),
        MediumError::Device => Err(Fault::Writing),
        MediumError::Failed => Ok(Reply::check(Sense::medium_failed(), Bytes::new(alloc))),
        MediumError::Unreadable => Ok(Reply::check(Sense::medium_failed(), Bytes::new(alloc))),
    }
}

// Answers a change that was accepted. Where `settles` is true, all that is pending is stored before that.
fn finish<M: Medium>(
    alloc: Global,
    medium: &mut M,
    warned: bool,
    settles: bool,
) -> Result<Reply, Fault>
    requires hand { settles ≡ true → M.below.at_hand medium.old }
    requires awake { (M.state medium.old).awake ≡ true }
    requires works { (M.state medium.old).failed ≡ false }
    ensures answer { SettlesAfter settles warned (M.state medium.old) result (M.state medium.new) }
    ensures stores { Stores (M.state medium.old) [] (M.state medium.new) }
    ensures advances { Advances M.below medium.old [] (is_device_fault result) medium.new }
{
    if settles {
        store_pending(medium)?;
    }
    Ok(done_reply(alloc, warned))
}

// GOOD, or an early warning.
fn done_reply(alloc: Global, warned: bool) -> Reply
    ensures { result ≡ done_reply warned }
{
    if warned {
        Reply::check(Sense::early_warning(), Bytes::new(alloc))
    } else {
        Reply::good(Bytes::new(alloc))
    }
}
