//! A cartridge, with the volume that it holds beside it in memory, which decides whether changes apply.
ghost use Rattle.std.specs.Prelude.{◌≡◌, ◌≤◌, [], ◌∷◌, length, true, IfSome, OnOk};
ghost use Rattle.volume_core.specs.Volume.{AllApply, after};
ghost use Rattle.tape_disk.specs.TwoDisks.{AreHonest};
ghost use Rattle.change_records.specs.Records.{spell_all};
ghost use Rattle.vtl_base.specs.declared.limits.TheConstants.{MAX_BODY};
ghost use Rattle.cartridge.specs.Contents.{volume_made, with_frames};

use cartridge::laws::a_pair_gives_one_volume;
use cartridge::{Cartridge, CartridgeError, NotCreated, NotOpened, Shelved};
use std::alloc::Global;
use std::marker::Model;
use std::time::{Duration, Instant};
use tape_disk::Disk;
use volume_core::{Change, Volume, are_capacities};
use vtl_base::Barcode;
use vtl_base::limits::MAX_BODY;

/// An open cartridge `T00001L6`, and the volume that it holds. After a failed store there is no volume beside
/// it. A contract sees the cartridge.
#[derive(Drop)]
pub struct Known<D: Disk> {
    cartridge: Cartridge<D>,
    volume: Option<Volume>,
}

impl<D: Disk> Model for Known<D> {
    ghost use Rattle.std.specs.Prelude.{◌≡◌, [], IfSome};
    ghost use Rattle.tape_disk.specs.TwoDisks.{AreHonest};
    ghost use Rattle.cartridge.specs.Contents.{volume_made};
    ghost use Rattle.cartridge.specs.State.{OpenCartridge, open_code};

    ghost Value = { OpenCartridge D };

    ghost coded = { open_code D.code };

    ghost view = { λ known. known.cartridge };

    ghost invariant = { λ known. IfSome known.volume (λ volume.
        (volume ≡ volume_made known.cartridge.contents) × (known.cartridge.torn ≡ [])
        × AreHonest D.state known.cartridge.disks) };
}

impl<D: Disk + Drop> Known<D> {
    /// Makes a cartridge with these capacities, and opens it.
    pub fn made(
        alloc: Global,
        first: D,
        second: D,
        capacities: &[u64],
    ) -> Result<Known<D>, NotCreated<D>>
        requires { AreHonest D.state (record { first = first; second = second }) }
    {
        let (Ok(barcode), true) = (Barcode::parse(b"T00001L6"), are_capacities(capacities)) else {
            let error = CartridgeError::NotOurs;
            return Err(NotCreated {
                error,
                first,
                second,
            });
        };
        let Ok(volume) = Volume::new(alloc, capacities) else {
            let error = CartridgeError::NoMemory;
            return Err(NotCreated {
                error,
                first,
                second,
            });
        };
        let shelved = Cartridge::create(alloc, first, second, &barcode, capacities)?;
        Known::opened(alloc, shelved, volume)
    }

    // Opens a cartridge that holds this volume.
    fn opened(alloc: Global, shelved: Shelved<D>, volume: Volume) -> Result<Known<D>, NotCreated<D>>
        requires honest { AreHonest D.state shelved.disks }
        requires known { shelved.known ≡ true }
        requires whole { shelved.torn ≡ [] }
        requires same { volume ≡ volume_made shelved.contents }
    {
        shelved.known();
        a_pair_gives_one_volume();
        match Cartridge::open(alloc, shelved) {
            Ok(cartridge) => Ok(Known {
                cartridge,
                volume: Some(volume),
            }),
            Err(refused) => {
                let NotOpened { error, shelved } = refused;
                let (first, second) = shelved.into_disks();
                Err(NotCreated {
                    error,
                    first,
                    second,
                })
            }
        }
    }

    /// Closes it, and opens it again.
    pub fn opened_again(self, alloc: Global) -> Result<Known<D>, NotCreated<D>> {
        let Known { cartridge, volume } = self;
        let shelved = cartridge.shelve();
        match volume {
            Some(volume) => Known::opened(alloc, shelved, volume),
            None => {
                let error = CartridgeError::Failed;
                let (first, second) = shelved.into_disks();
                Err(NotCreated {
                    error,
                    first,
                    second,
                })
            }
        }
    }

    /// Stores changes as one frame. It returns `BadRecord` at 0 where they do not apply, or where there is no
    /// volume beside the cartridge.
    pub fn store(&mut self, alloc: Global, changes: &[Change]) -> Result<(), CartridgeError> {
        let Some(volume) = self.volume.take() else {
            return Err(CartridgeError::BadRecord { at: 0 });
        };
        let Some(volume) = carried_out(alloc, volume, changes) else {
            return Err(CartridgeError::BadRecord { at: 0 });
        };
        store_frame(&mut self.cartridge, changes)?;
        self.volume = Some(volume);
        Ok(())
    }

    /// Stores changes as one frame, and returns the time that the store took.
    pub fn store_by_the_clock(&mut self, rt: &HostRuntime, changes: &[Change]) -> Option<Duration> {
        let Some(volume) = self.volume.take() else {
            return None;
        };
        let Some(volume) = carried_out(rt.alloc(), volume, changes) else {
            return None;
        };
        let start = Instant::now(rt).ok()?;
        let Ok(()) = store_frame(&mut self.cartridge, changes) else {
            return None;
        };
        let time = start.elapsed(rt).ok()?;
        self.volume = Some(volume);
        Some(time)
    }

    /// The cartridge, for reading.
    pub fn cartridge(&self) -> &Cartridge<D> {
        &self.cartridge
    }

    /// The cartridge alone.
    pub fn into_cartridge(self) -> Cartridge<D> {
        self.cartridge
    }

    /// Its disks, the first one first.
    pub fn into_disks(self) -> (D, D) {
        self.cartridge.shelve().into_disks()
    }
}

// Stores changes as one frame. Where memory ran out it tries once more, since nothing changed.
fn store_frame<D: Disk>(
    cartridge: &mut Cartridge<D>,
    changes: &[Change],
) -> Result<(), CartridgeError>
    requires some { 1 ≤ length changes.now }
    requires apply { AllApply (volume_made cartridge.old.contents) changes.now }
    requires short { length (spell_all changes.now) ≤ MAX_BODY }
    ensures honest { AreHonest D.state cartridge.old.disks → AreHonest D.state cartridge.new.disks }
    ensures ok { OnOk result ((cartridge.new.torn ≡ cartridge.old.torn)
        × (cartridge.new.contents ≡ with_frames cartridge.old.contents (changes.now ∷ []))) }
{
    match cartridge.store(changes) {
        Err(CartridgeError::NoMemory) => cartridge.store(changes),
        answer => answer,
    }
}

// The volume after these changes, where they may be stored as one frame.
fn carried_out(alloc: Global, volume: Volume, changes: &[Change]) -> Option<Volume>
    ensures some { IfSome result (λ _. 1 ≤ length changes.now) }
    ensures short { IfSome result (λ _. length (spell_all changes.now) ≤ MAX_BODY) }
    ensures apply { IfSome result (λ v. AllApply volume changes.now × (v ≡ after volume changes.now)) }
{
    if changes.is_empty() {
        return None;
    }
    let mut volume = volume;
    let mut left = u64::from(MAX_BODY);
    for change in changes {
        let size = change.frame_size() - 5;
        if size > left {
            return None;
        }
        left -= size;
        let Ok(copy) = change.copy(alloc) else {
            return None;
        };
        let Ok(()) = volume.apply(copy) else {
            return None;
        };
    }
    Some(volume)
}
