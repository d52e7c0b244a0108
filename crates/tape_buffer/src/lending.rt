//! Memory for as many changes as may be pending, and a change that is taken into it.
ghost use Rattle.std.specs.Prelude.{◌≡◌, ◌≤◌, ◌++◌, [], ◌∷◌, None, false};
ghost use Rattle.vtl_base.specs.Below.{Advances};
ghost use Rattle.vtl_base.specs.declared.limits.TheConstants.{BUFFER_RECORDS};
ghost use Rattle.volume_core.specs.Volume.{after, refusal_of};
ghost use Rattle.volume_core.specs.Stores.{Stores};
ghost use Rattle.cartridge.specs.Answers.{HasReserved, KeepsReserved};
ghost use Rattle.cartridge.specs.Contents.{volume_made};
ghost use Rattle.tape_buffer.specs.declared.budgets.Budget.{Budget};
ghost use Rattle.tape_buffer.specs.Inner.Lending.{MayBeLent};
ghost use Rattle.tape_buffer.specs.Inner.Storing.{IsRoomyFor};
ghost use Rattle.tape_buffer.specs.Invariants.{IsHeld, buffer_of};
ghost use Rattle.tape_buffer.specs.Limits.{FitsBuffer};
ghost use Rattle.tape_buffer.specs.Moves.{IsHere, MovesUnreported, buffer_below};
ghost use Rattle.tape_buffer.specs.State.{IsPendingOver, open_buffer, open_state, state_of};
ghost use Rattle.tape_buffer.specs.Budgets.{KeepsBudget, budget_after};
ghost use Rattle.tape_buffer.specs.Taking.{LendsFrom, LendsOpen, LendsRecords, longest_body};

use crate::budgets::Budget;
use crate::holding::Holding;
use crate::pending::{Pending, block_bytes};
use cartridge::{Cartridge, Shelved};
use tape_disk::Disk;
use volume_core::Change;
use vtl_base::layout::RECORD_HEAD;
use vtl_base::limits::{BUFFER_BYTES, BUFFER_RECORDS};

// The bytes of the longest body of what is pending: of all records that may be, with all their bytes.
const LONGEST_BODY: usize = BUFFER_BYTES + RECORD_HEAD * BUFFER_RECORDS;

// How much may be accepted over what is held, once memory is reserved for it.
pub(crate) fn allow<D: Disk>(held: &mut Holding<(Cartridge<D>, Pending), Shelved<D>>) -> Budget
    requires held { IsHeld held.old }
    requires hand { IsHere held.old }
    ensures lends { LendsFrom (buffer_of held.old) (record { buffer = buffer_of held.new; left = result }) }
    ensures may { MayBeLent held.new result }
    ensures few { result.records ≤ BUFFER_RECORDS }
    ensures state { state_of D.state (buffer_of held.new) ≡ state_of D.state (buffer_of held.old) }
    ensures advances { Advances (buffer_below D.state) (buffer_of held.old) [] false (buffer_of held.new) }
{
    match held {
        Holding::Open((cartridge, pending)) => allow_over(cartridge, pending),
        Holding::Closed(_) => Budget {
            records: 0,
            bytes: 0,
            room: 0,
        },
        Holding::Away(_) => unreachable!(),
    }
}

// The same over an open cartridge.
fn allow_over<D: Disk>(cartridge: &mut Cartridge<D>, pending: &Pending) -> Budget
    requires { IsPendingOver cartridge.old pending.now }
    ensures lends { LendsOpen cartridge.old pending.now cartridge.new result }
    ensures held { IsPendingOver cartridge.new pending.now }
    ensures roomy { IsRoomyFor cartridge.new pending.now result }
    ensures state { open_state cartridge.new pending.now ≡ open_state cartridge.old pending.now }
    ensures advances { Advances (buffer_below D.state) (open_buffer cartridge.old pending.now) [] false
        (open_buffer cartridge.new pending.now) }
{
    // Called for the proof: no more is pending than the limits allow.
    pending.within();
    let bytes = pending.bytes_left();
    let room = cartridge.room() - pending.frame_bytes();
    let records = reserve_all(cartridge, pending);
    // Called for the proof: this many partitions have their memory.
    let _ = cartridge.parts();
    Budget {
        records,
        bytes,
        room,
    }
}

// Reserves the memory for storing as many changes as may be pending, one by one or all at once. Returns how many
// changes may be accepted: none where memory runs out, or where the cartridge has failed.
fn reserve_all<D: Disk>(cartridge: &mut Cartridge<D>, pending: &Pending) -> usize
    requires { FitsBuffer pending.now }
    ensures same { cartridge.new ≡ record cartridge.old { reserved = cartridge.new.reserved } }
    ensures grows { KeepsReserved cartridge.old.reserved cartridge.new.reserved }
    ensures records { LendsRecords cartridge.old pending.now result }
    ensures enough { 1 ≤ result → HasReserved BUFFER_RECORDS longest_body BUFFER_RECORDS cartridge.new.reserved }
{
    if cartridge.has_failed() {
        return 0;
    }
    match cartridge.reserve_stores(BUFFER_RECORDS, LONGEST_BODY, BUFFER_RECORDS) {
        Ok(()) => BUFFER_RECORDS - pending.len(),
        Err(_) => 0,
    }
}

// Accepts a change over an open cartridge that is lent, and returns what is left of its budget. It takes no memory.
pub(crate) fn take_over<D: Disk>(
    cartridge: &Cartridge<D>,
    pending: &mut Pending,
    left: Budget,
    change: Change,
) -> Budget
    requires held { IsPendingOver cartridge.now pending.old }
    requires roomy { IsRoomyFor cartridge.now pending.old left }
    requires applies { refusal_of (after (volume_made cartridge.now.contents) pending.old) change ≡ None }
    requires within { KeepsBudget left (change ∷ []) }
    ensures left { result ≡ budget_after left (change ∷ []) }
    ensures taken { pending.new ≡ pending.old ++ change ∷ [] }
    ensures held { IsPendingOver cartridge.now pending.new }
    ensures roomy { IsRoomyFor cartridge.now pending.new result }
    ensures stores { Stores (open_state cartridge.now pending.old) (change ∷ [])
        (open_state cartridge.now pending.new) }
    ensures advances { cartridge.now.failed ≡ false → Advances (buffer_below D.state)
        (open_buffer cartridge.now pending.old) (change ∷ []) false (open_buffer cartridge.now pending.new) }
    ensures moves { MovesUnreported D.state (open_buffer cartridge.now pending.old) (change ∷ [])
        (open_buffer cartridge.now pending.new) }
{
    let left = Budget {
        records: left.records - 1,
        bytes: left.bytes - block_bytes(&change),
        room: left.room - change.frame_size(),
    };
    pending.push(change);
    left
}
