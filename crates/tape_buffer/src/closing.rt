//! Parking a medium, and opening it again.
ghost use Rattle.std.specs.Prelude.{◌≡◌, ◌≢◌, ◌⊎◌, [], IfOk, IfErr, Ok, Err, true, false};
ghost use Rattle.vtl_base.specs.Below.{Advances};
ghost use Rattle.tape_disk.specs.TwoDisks.{AreHonest};
ghost use Rattle.volume_core.specs.declared.media.MediumError.TheVariants as Errors;
ghost use Rattle.volume_core.specs.Medium.{Parks, Wakes, met_fault, volume_of};
ghost use Rattle.volume_core.specs.Stores.{Stores};
ghost use Rattle.cartridge.specs.Contents.{volume_made};
ghost use Rattle.object_index.specs.Shapes.{IsIndexOf};
ghost use Rattle.tape_buffer.specs.State.{IsPendingOver, IsSettledOn, closed_buffer, closed_state, open_buffer, open_state};
ghost use Rattle.tape_buffer.specs.Frames.{ParksInFrames};
ghost use Rattle.tape_buffer.specs.Moves.{LeavesAlone, LeavesEachAlone, buffer_below};
ghost use Rattle.tape_buffer.specs.Inner.Waking.{wake_error_of};

use crate::pending::Pending;
use crate::storing::settle_over;
use cartridge::laws::a_pair_gives_one_volume;
use cartridge::{Cartridge, CartridgeError, NotOpened, Opening, Shelved};
use object_index::Index;
use std::alloc::Global;
use tape_disk::Disk;
use volume_core::MediumError;
use vtl_base::NoMemory;

// Closes a cartridge, once what is pending over it is stored. Where the cartridge has failed, what is pending is to be
// dropped. After a device fault the cartridge is returned open, and has failed.
pub(crate) fn park_over<D: Disk>(
    cartridge: Cartridge<D>,
    pending: &mut Pending,
) -> Result<Shelved<D>, Cartridge<D>>
    requires { IsPendingOver cartridge pending.old }
    ensures ok { IfOk result (λ shelved. (shelved.known ≡ true)
        × ParksInFrames cartridge.failed (Ok tt) cartridge.contents.frames pending.old shelved.contents.frames
        × Parks (AreHonest D.state cartridge.disks) (open_state cartridge pending.old) (Ok tt)
        (closed_state D.state shelved)
        × Advances (buffer_below D.state) (open_buffer cartridge pending.old) [] false (closed_buffer shelved)) }
    ensures err { IfErr result (λ broken. IsPendingOver broken pending.new
        × (broken.contents.frames ≡ cartridge.contents.frames)
        × Parks (AreHonest D.state cartridge.disks) (open_state cartridge pending.old) (Err Errors.Device)
        (open_state broken pending.new)
        × Stores (open_state cartridge pending.old) [] (open_state broken pending.new)
        × Advances (buffer_below D.state) (open_buffer cartridge pending.old) [] true
        (open_buffer broken pending.new)) }
{
    if cartridge.has_failed() {
        return Ok(shelve_over(cartridge, pending));
    }
    let mut cartridge = cartridge;
    match settle_over(&mut cartridge, pending) {
        Ok(()) => Ok(shelve_over(cartridge, pending)),
        Err(MediumError::Device) => Err(cartridge),
        Err(_) => unreachable!(),
    }
}

// Closes a cartridge over which nothing is pending, or one that has failed; then what is pending is to be dropped.
fn shelve_over<D: Disk>(cartridge: Cartridge<D>, pending: &Pending) -> Shelved<D>
    requires held { IsPendingOver cartridge pending.now }
    requires at_rest { (pending.now ≡ []) ⊎ (cartridge.failed ≡ true) }
    ensures known { result.known ≡ true }
    ensures frames { result.contents.frames ≡ cartridge.contents.frames }
    ensures parks { Parks (AreHonest D.state cartridge.disks) (open_state cartridge pending.now) (Ok tt)
        (closed_state D.state result) }
    ensures advances { Advances (buffer_below D.state) (open_buffer cartridge pending.now) [] false
        (closed_buffer result) }
{
    cartridge.known();
    let _ = pending;
    cartridge.shelve()
}

// Opens a closed cartridge, with a catalog of what it holds and memory for what may be pending, or returns it as it
// was. It writes nothing, and unless a device fails, what stands on the disks is then sure.
pub(crate) fn wake_closed<D: Disk>(
    alloc: Global,
    shelved: Shelved<D>,
) -> Result<(Cartridge<D>, Pending, Index), (MediumError, Shelved<D>)>
    ensures ok { IfOk result (λ woken. IsPendingOver woken.0 woken.1
        × Wakes (AreHonest D.state shelved.disks) (closed_state D.state shelved) (Ok tt) (open_state woken.0 woken.1)
        × Advances (buffer_below D.state) (closed_buffer shelved) [] false (open_buffer woken.0 woken.1)
        × LeavesAlone D.state (closed_buffer shelved) (open_buffer woken.0 woken.1)
        × LeavesEachAlone D.state (closed_buffer shelved) (open_buffer woken.0 woken.1)) }
    ensures catalog { IfOk result (λ woken. IsIndexOf woken.2 (volume_of (open_state woken.0 woken.1))) }
    ensures err { IfErr result (λ back. (back.0 ≢ Errors.Device → IsSettledOn D.state back.1)
        × Wakes (AreHonest D.state shelved.disks) (closed_state D.state shelved) (Err back.0)
        (closed_state D.state back.1)
        × Advances (buffer_below D.state) (closed_buffer shelved) [] (met_fault (Err back.0))
        (closed_buffer back.1)
        × LeavesAlone D.state (closed_buffer shelved) (closed_buffer back.1)
        × LeavesEachAlone D.state (closed_buffer shelved) (closed_buffer back.1)) }
{
    // Called for the proof: a pair of images gives one cartridge's contents at most.
    a_pair_gives_one_volume();
    shelved.known();
    match Opening::of(alloc, shelved) {
        Ok(opening) => match memory_for(alloc, opening.cartridge()) {
            Ok((index, pending)) => {
                let cartridge = opening.keep();
                cartridge.known();
                Ok((cartridge, pending, index))
            }
            Err(_) => {
                let shelved = opening.into_shelved();
                Err((MediumError::NoMemory, shelved))
            }
        },
        Err(refused) => {
            let NotOpened { error, shelved } = refused;
            shelved.known();
            Err((wake_error(error), shelved))
        }
    }
}

// A catalog of what a cartridge holds, and memory for what may be pending over it.
fn memory_for<D: Disk>(
    alloc: Global,
    cartridge: &Cartridge<D>,
) -> Result<(Index, Pending), NoMemory>
    ensures { IfOk result (λ made. IsIndexOf made.0 (volume_made cartridge.now.contents) × (made.1 ≡ [])) }
{
    let pending = Pending::new(alloc)?;
    let index = cartridge.catalog(alloc)?;
    Ok((index, pending))
}

// The error of a medium whose cartridge could not be opened.
fn wake_error(error: CartridgeError) -> MediumError
    ensures { result ≡ wake_error_of error }
{
    match error {
        CartridgeError::Device(_) => MediumError::Device,
        CartridgeError::NoMemory => MediumError::NoMemory,
        CartridgeError::NotOurs
        | CartridgeError::Damaged { .. }
        | CartridgeError::BadRecord { .. }
        | CartridgeError::SideFull
        | CartridgeError::Failed => MediumError::Unreadable,
    }
}
