//! Storing what is pending, as one frame.
ghost use Rattle.std.specs.Prelude.{◌≡◌, ◌<◌, ◌++◌, [], ◌∷◌, OnErr, OnOk, length};
ghost use Rattle.vtl_base.specs.Below.{Advances};
ghost use Rattle.volume_core.specs.Volume.{part_of};
ghost use Rattle.volume_core.specs.Medium.{Settles, Turns, met_fault, turn_met_fault};
ghost use Rattle.volume_core.specs.Stores.{Stores};
ghost use Rattle.tape_buffer.specs.Limits.{FitsBuffer};
ghost use Rattle.tape_buffer.specs.State.{IsPendingOver, IsReservedFor, open_buffer, open_state};
ghost use Rattle.tape_buffer.specs.Moves.{StoresBehind, buffer_below};
ghost use Rattle.tape_buffer.specs.Frames.{IsOneFrame, IsOneFrameIn};
ghost use Rattle.tape_buffer.specs.Inner.Adding.{LacksOneMore};
ghost use Rattle.tape_buffer.specs.Inner.Storing.{IsRoomyFor, left_of};
ghost use Rattle.tape_buffer.specs.declared.budgets.Budget.{Budget};

use crate::pending::Pending;
use cartridge::{Cartridge, CartridgeError};
use tape_disk::Disk;
use volume_core::{Change, MediumError, Turn};
use vtl_base::NoMemory;
use vtl_base::layout::FRAME_HEAD;

// Stores these changes, which are all that is pending over an open cartridge. It takes no memory. At Ok none of them is
// pending any more.
pub(crate) fn store_all<D: Disk>(
    cartridge: &mut Cartridge<D>,
    changes: &[Change],
) -> Result<(), MediumError>
    requires held { IsPendingOver cartridge.old changes.now }
    requires few { FitsBuffer changes.now }
    ensures held { IsPendingOver cartridge.new (left_of result changes.now) }
    ensures answer { Settles (open_state cartridge.old changes.now) result
        (open_state cartridge.new (left_of result changes.now)) }
    ensures frame { IsOneFrame result cartridge.old.contents.frames changes.now cartridge.new.contents.frames }
    ensures stores { Stores (open_state cartridge.old changes.now) []
        (open_state cartridge.new (left_of result changes.now)) }
    ensures advances { Advances (buffer_below D.state) (open_buffer cartridge.old changes.now) [] (met_fault result)
        (open_buffer cartridge.new (left_of result changes.now)) }
    ensures behind { StoresBehind D.state (open_buffer cartridge.old changes.now)
        (open_buffer cartridge.new (left_of result changes.now)) }
    ensures roomy { (left : Budget) → IsRoomyFor cartridge.old changes.now left →
        IsRoomyFor cartridge.new (left_of result changes.now) left }
{
    if cartridge.has_failed() {
        return Err(MediumError::Failed);
    }
    cartridge.known();
    if changes.is_empty() {
        return Ok(());
    }
    match cartridge.store(changes) {
        Ok(()) => Ok(()),
        Err(CartridgeError::Device(_)) => Err(MediumError::Device),
        Err(CartridgeError::NoMemory) => unreachable!(),
        Err(CartridgeError::SideFull) => unreachable!(),
        Err(CartridgeError::Failed) => unreachable!(),
        Err(CartridgeError::NotOurs) => unreachable!(),
        Err(CartridgeError::Damaged { .. }) => unreachable!(),
        Err(CartridgeError::BadRecord { .. }) => unreachable!(),
    }
}

// Stores all that is pending over an open cartridge. It takes no memory.
pub(crate) fn settle_over<D: Disk>(
    cartridge: &mut Cartridge<D>,
    pending: &mut Pending,
) -> Result<(), MediumError>
    requires { IsPendingOver cartridge.old pending.old }
    ensures held { IsPendingOver cartridge.new pending.new }
    ensures answer { Settles (open_state cartridge.old pending.old) result (open_state cartridge.new pending.new) }
    ensures frame { IsOneFrame result cartridge.old.contents.frames pending.old cartridge.new.contents.frames }
    ensures stores { Stores (open_state cartridge.old pending.old) [] (open_state cartridge.new pending.new) }
    ensures advances { Advances (buffer_below D.state) (open_buffer cartridge.old pending.old) [] (met_fault result)
        (open_buffer cartridge.new pending.new) }
    ensures behind { StoresBehind D.state (open_buffer cartridge.old pending.old)
        (open_buffer cartridge.new pending.new) }
    ensures roomy { (left : Budget) → IsRoomyFor cartridge.old pending.old left →
        IsRoomyFor cartridge.new pending.new left }
{
    // Called for the proof: no more is pending than the limits allow.
    pending.within();
    match store_all(cartridge, pending.as_slice()) {
        Ok(()) => {
            pending.clear();
            Ok(())
        }
        Err(error) => Err(error),
    }
}

// A flusher's turn over an open cartridge. It takes no memory.
pub(crate) fn turn_over<D: Disk>(cartridge: &mut Cartridge<D>, pending: &mut Pending) -> Turn
    requires { IsPendingOver cartridge.old pending.old }
    ensures held { IsPendingOver cartridge.new pending.new }
    ensures answer { Turns (open_state cartridge.old pending.old) result (open_state cartridge.new pending.new) }
    ensures frame { IsOneFrameIn result cartridge.old.contents.frames pending.old cartridge.new.contents.frames }
    ensures stores { Stores (open_state cartridge.old pending.old) [] (open_state cartridge.new pending.new) }
    ensures advances { Advances (buffer_below D.state) (open_buffer cartridge.old pending.old) []
        (turn_met_fault result) (open_buffer cartridge.new pending.new) }
    ensures behind { StoresBehind D.state (open_buffer cartridge.old pending.old)
        (open_buffer cartridge.new pending.new) }
    ensures roomy { (left : Budget) → IsRoomyFor cartridge.old pending.old left →
        IsRoomyFor cartridge.new pending.new left }
{
    if cartridge.has_failed() {
        return Turn::Idle;
    }
    if pending.is_empty() {
        return Turn::Idle;
    }
    let count = pending.len();
    match settle_over(cartridge, pending) {
        Ok(()) => Turn::Stored(count),
        Err(_) => Turn::Device,
    }
}

// Reserves the memory for storing what is pending and one more change. It runs out only where less than that is
// reserved.
pub(crate) fn reserve_over<D: Disk>(
    cartridge: &mut Cartridge<D>,
    pending: &Pending,
    change: &Change,
) -> Result<(), NoMemory>
    requires enough { IsReservedFor cartridge.old.reserved pending.now }
    requires few { FitsBuffer (pending.now ++ change.now ∷ []) }
    requires part { part_of change.now < length cartridge.old.reserved.entries }
    ensures same { cartridge.new ≡ record cartridge.old { reserved = cartridge.new.reserved } }
    ensures still { IsReservedFor cartridge.new.reserved pending.now }
    ensures ok { OnOk result (IsReservedFor cartridge.new.reserved (pending.now ++ change.now ∷ [])) }
    ensures lacks { OnErr result (LacksOneMore cartridge.old.reserved pending.now change.now) }
{
    let body = pending.body_bytes() + change.frame_size() as usize - FRAME_HEAD as usize;
    match cartridge.reserve(change.part(), body, pending.len() + 1) {
        Ok(()) => Ok(()),
        Err(_) => Err(NoMemory),
    }
}
