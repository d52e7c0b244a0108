//! Accepting a change.
ghost use Rattle.std.specs.Prelude.{◌≡◌, ◌≤◌, ◌+◌, ◌↔◌, ◌++◌, ◌∷◌, ◌⊎◌, [], List, None, IsTrue, IfErr, OnErr, OnOk, false, sum_by};
ghost use Rattle.vtl_base.specs.Below.{Advances};
ghost use Rattle.volume_core.specs.Volume.{Part, after, part_of, refusal_of};
ghost use Rattle.volume_core.specs.Medium.{Accepts, accept_answer, accepted_by, frame_size, met_fault, volume_of};
ghost use Rattle.volume_core.specs.Stores.{Stores};
ghost use Rattle.object_index.specs.Places.{reserved_of};
ghost use Rattle.object_index.specs.Shapes.{IsIndexOf};
ghost use Rattle.cartridge.specs.Contents.{volume_made};
ghost use Rattle.tape_buffer.specs.Frames.{AcceptsInFrames};
ghost use Rattle.tape_buffer.specs.Limits.{FitsBuffer};
ghost use Rattle.tape_buffer.specs.State.{IsPendingOver, open_buffer, open_state};
ghost use Rattle.tape_buffer.specs.Moves.{buffer_below};
ghost use Rattle.tape_buffer.specs.Inner.Adding.{IsReadyToAdd, IsWay, LacksOneMore, with_added};

use crate::pending::Pending;
use crate::storing::{reserve_over, settle_over};
use cartridge::Cartridge;
use cartridge::shown::{enter_shown, refusal_shown};
use object_index::Index;
use tape_disk::Disk;
use volume_core::{Change, MediumError, NotAccepted};
use vtl_base::NoMemory;

// Accepts a change over an open cartridge, or refuses it. `index` is the catalog of the volume that is seen. Where no
// more may be pending, what is pending is stored first. A change that is not accepted is returned.
pub(crate) fn accept_over<D: Disk>(
    index: &mut Index,
    cartridge: &mut Cartridge<D>,
    pending: &mut Pending,
    change: Change,
) -> Result<(), NotAccepted>
    requires shows { IsIndexOf index.old (volume_of (open_state cartridge.old pending.old)) }
    requires held { IsPendingOver cartridge.old pending.old }
    ensures shows { IsIndexOf index.new (volume_of (open_state cartridge.new pending.new)) }
    ensures held { IsPendingOver cartridge.new pending.new }
    ensures answer { Accepts (open_state cartridge.old pending.old) change (accept_answer result)
        (open_state cartridge.new pending.new) }
    ensures returned { IfErr result (λ refused. refused.change ≡ change) }
    ensures frames { AcceptsInFrames change (accept_answer result) cartridge.old.contents.frames pending.old
        cartridge.new.contents.frames pending.new }
    ensures stores { Stores (open_state cartridge.old pending.old) (accepted_by (accept_answer result) change)
        (open_state cartridge.new pending.new) }
    ensures advances { Advances (buffer_below D.state) (open_buffer cartridge.old pending.old)
        (accepted_by (accept_answer result) change) (met_fault (accept_answer result))
        (open_buffer cartridge.new pending.new) }
{
    if cartridge.has_failed() {
        let error = MediumError::Failed;
        return Err(NotAccepted { error, change });
    }
    match refusal_shown(index, &change) {
        Some(cause) => {
            let error = MediumError::Refused(cause);
            return Err(NotAccepted { error, change });
        }
        None => {}
    }
    if !has_room_over(cartridge, pending, change.frame_size()) {
        let error = MediumError::SideFull;
        return Err(NotAccepted { error, change });
    }
    match make_way(cartridge, pending, &change) {
        Ok(()) => {}
        Err(error) => return Err(NotAccepted { error, change }),
    }
    match add_over(index, cartridge, pending, change) {
        Ok(()) => Ok(()),
        Err(change) => {
            let error = MediumError::NoMemory;
            Err(NotAccepted { error, change })
        }
    }
}

// Whether the side has room for one more frame of this many bytes, besides what is pending.
pub(crate) fn has_room_over<D: Disk>(cartridge: &Cartridge<D>, pending: &Pending, size: u64) -> bool
    requires { IsPendingOver cartridge.now pending.now }
    ensures { IsTrue result ↔ sum_by frame_size pending.now + size ≤ cartridge.now.room }
{
    size <= cartridge.room() - pending.frame_bytes()
}

// Makes room for one more pending change: where it would pass a limit, all that is pending is stored.
fn make_way<D: Disk>(
    cartridge: &mut Cartridge<D>,
    pending: &mut Pending,
    change: &Change,
) -> Result<(), MediumError>
    requires held { IsPendingOver cartridge.old pending.old }
    requires works { cartridge.old.failed ≡ false }
    requires alone { FitsBuffer (change.now ∷ []) }
    requires room { sum_by frame_size (pending.old ++ change.now ∷ []) ≤ cartridge.old.room }
    ensures held { IsPendingOver cartridge.new pending.new }
    ensures answer { IsReadyToAdd (open_state cartridge.old pending.old) result (open_state cartridge.new pending.new) }
    ensures way { OnOk result (FitsBuffer (pending.new ++ change.now ∷ [])
        × (sum_by frame_size (pending.new ++ change.now ∷ []) ≤ cartridge.new.room)) }
    ensures frames { IsWay change.now result cartridge.old.contents.frames pending.old
        cartridge.new.contents.frames pending.new }
    ensures stores { Stores (open_state cartridge.old pending.old) [] (open_state cartridge.new pending.new) }
    ensures advances { Advances (buffer_below D.state) (open_buffer cartridge.old pending.old) [] (met_fault result)
        (open_buffer cartridge.new pending.new) }
{
    if !pending.is_full_for(change) {
        return Ok(());
    }
    match settle_over(cartridge, pending) {
        Ok(()) => Ok(()),
        Err(error) => Err(error),
    }
}

// Adds a change that is not refused, and for which there is room on the side and among what is pending. It is returned
// where memory runs out, which is only where less is reserved than it needs.
fn add_over<D: Disk>(
    index: &mut Index,
    cartridge: &mut Cartridge<D>,
    pending: &mut Pending,
    change: Change,
) -> Result<(), Change>
    requires shows { IsIndexOf index.old (after (volume_made cartridge.old.contents) pending.old) }
    requires held { IsPendingOver cartridge.old pending.old }
    requires works { cartridge.old.failed ≡ false }
    requires unrefused { refusal_of (after (volume_made cartridge.old.contents) pending.old) change ≡ None }
    requires room { sum_by frame_size (pending.old ++ change ∷ []) ≤ cartridge.old.room }
    requires few { FitsBuffer (pending.old ++ change ∷ []) }
    ensures shows { (volume : List Part) → IsIndexOf index.old volume →
        IsIndexOf index.new (with_added result change volume) }
    ensures held { IsPendingOver cartridge.new pending.new }
    ensures same { cartridge.new ≡ record cartridge.old { reserved = cartridge.new.reserved } }
    ensures ok { OnOk result (pending.new ≡ pending.old ++ change ∷ []) }
    ensures err { IfErr result (λ back. (back ≡ change) × (pending.new ≡ pending.old)) }
    ensures lacks { OnErr result (LacksOneMore cartridge.old.reserved pending.old change
        ⊎ (reserved_of index.old (part_of change) ≡ 0)) }
{
    // Called for the proof: in a cartridge that has not failed nothing is in flight, and the partition is there.
    cartridge.known();
    let _ = cartridge.parts();
    let Ok(()) = reserve_over(cartridge, pending, &change) else {
        return Err(change);
    };
    let Ok(()) = reserve_entry(index, &change) else {
        return Err(change);
    };
    enter_shown(index, &change);
    pending.push(change);
    Ok(())
}

// Reserves memory in a catalog for a change, which the volume that it shows must not refuse.
fn reserve_entry(index: &mut Index, change: &Change) -> Result<(), NoMemory>
    requires { (volume : List Part) × IsIndexOf index.old volume × (refusal_of volume change.now ≡ None) }
    ensures shows { (volume : List Part) → IsIndexOf index.old volume → IsIndexOf index.new volume }
    ensures ok { OnOk result (1 ≤ reserved_of index.new (part_of change.now)) }
    ensures err { OnErr result (reserved_of index.old (part_of change.now) ≡ 0) }
{
    index.reserve(change.part(), 1)
}
