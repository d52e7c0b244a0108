//! A medium for tests: its side has an end, and its device fails.
ghost use Rattle.std.specs.Prelude.{◌≡◌, ◌≤◌, ◌+◌, ◌↔◌, IsTrue, IfOk, IfErr, OnOk, OnErr, None, [], length, sum_by, true, false, if◌then◌else◌};
ghost use Rattle.volume_core.specs.Volume.{AllApply, after, are_capacities, empty_volume, refusal_of};
ghost use Rattle.volume_core.specs.Medium.{frame_size, volume_of};
ghost use Rattle.test_media.specs.StagedMedium.{staged_state};
ghost use Rattle.test_media.specs.Inner.StagedMedium.{IsOpening, IsStoring, all_stored, closed, with_pending};

mod calls;

use crate::fuses::Fuse;
use std::alloc::Global;
use std::marker::Model;
use volume_core::{ApplyError, Change, MediumError, NotApplied, Volume};
use vtl_base::NoMemory;

/// Which call of a test medium's device fails, and what that leaves.
#[derive(Clone, Copy, Drop)]
pub struct FaultPlan {
    /// The storing that fails, where one is to: 0 is the first.
    pub store: Option<u32>,
    /// The reading of a block that fails, where one is to: 0 is the first.
    pub fetch: Option<u32>,
    /// The frame of all that is pending is in flight as a storing fails; else none is.
    pub tears: bool,
    /// The side is found with the frame that was in flight; else without it.
    pub keeps_torn: bool,
}

/// A medium for tests. Its changes stay pending until they are asked to be stored, its side has an
/// end, and its device fails in the calls that were chosen; it has then failed until it was parked
/// and woken.
#[derive(Drop)]
pub struct StagedMedium {
    alloc: Global,
    capacities: Vec<u64>,
    log: Vec<Change>,
    stored: usize,
    seen: Volume,
    room: u64,
    free: u64,
    alone_below: u32,
    awake: bool,
    failed: bool,
    is_torn: bool,
    tears: bool,
    keeps_torn: bool,
    store_fuse: Fuse,
    fetch_fuse: Fuse,
}

impl Model for StagedMedium {
    ghost use Rattle.std.specs.Prelude.{◌+◌, take, drop};
    ghost use Rattle.test_media.specs.StagedMedium.{Staged};
    ghost use Rattle.test_media.specs.Inner.StagedMedium.{IsStaged};
    ghost use Rattle.test_media.specs.Inner.Fuses.{times_blown};

    ghost Value = { Staged };

    ghost view = { λ m. record {
      capacities = m.capacities.items;
      stored = take m.stored m.log.items;
      rest = drop m.stored m.log.items;
      is_torn = m.is_torn;
      awake = m.awake;
      failed = m.failed;
      room = m.room;
      alone_below = m.alone_below;
      faults = times_blown m.store_fuse + times_blown m.fetch_fuse;
    } };

    ghost invariant = { λ m.
        IsStaged m.capacities.items m.log.items m.stored m.room m.free m.seen m.awake m.failed };
}

// What these changes make of an empty volume.
fn replayed(alloc: Global, capacities: &[u64], changes: &[Change]) -> Result<Volume, NoMemory>
    requires capacities { IsTrue (are_capacities capacities.now) }
    requires changes { AllApply (empty_volume capacities.now) changes.now }
    ensures { IfOk result (λ volume. volume ≡ after (empty_volume capacities.now) changes.now) }
{
    let mut volume = Volume::new(alloc, capacities)?;
    for change in changes {
        match volume.apply(change.copy(alloc)?) {
            Ok(()) => {}
            Err(
                NotApplied {
                    error: ApplyError::NoMemory,
                    ..
                },
            ) => return Err(NoMemory),
            Err(
                NotApplied {
                    error: ApplyError::Refused(_),
                    ..
                },
            ) => unreachable!(),
        }
    }
    Ok(volume)
}

impl StagedMedium {
    /// An empty cartridge, awake, of partitions with these capacities in bytes, with a side to which `room` bytes may
    /// be added. `are_capacities` tests the condition.
    pub fn new(
        alloc: Global,
        capacities: &[u64],
        room: u64,
        plan: FaultPlan,
    ) -> Result<Self, NoMemory>
        requires { IsTrue (are_capacities capacities.now) }
        ensures { IfOk result (λ medium. medium ≡ record {
          capacities = capacities.now;
          stored = [];
          rest = [];
          is_torn = false;
          awake = true;
          failed = false;
          room = room;
          alone_below = 0;
          faults = 0;
        }) }
    {
        Ok(StagedMedium {
            alloc,
            capacities: Vec::from_slice(alloc, capacities)?,
            log: Vec::new(alloc),
            stored: 0,
            seen: Volume::new(alloc, capacities)?,
            room,
            free: room,
            alone_below: 0,
            awake: true,
            failed: false,
            is_torn: false,
            tears: plan.tears,
            keeps_torn: plan.keeps_torn,
            store_fuse: Fuse::new(plan.store),
            fetch_fuse: Fuse::new(plan.fetch),
        })
    }

    /// The same, and it says that it takes changes whose blocks have fewer bytes than this without its
    /// device. At first it says so of none.
    pub fn taking_alone(mut self, bytes: u32) -> Self
        ensures { result ≡ record self { alone_below = bytes } }
    {
        self.alone_below = bytes;
        self
    }

    // The volume that it is seen as.
    fn volume(&self) -> &Volume
        requires { self.now.awake ≡ true }
        ensures { result.now ≡ volume_of (staged_state self.now) }
    {
        &self.seen
    }

    // Whether a frame more of this many bytes has room, with what is pending.
    fn has_room_for_frame(&self, size: u64) -> bool
        ensures { IsTrue result ↔ sum_by frame_size self.now.rest + size ≤ self.now.room }
    {
        size <= self.free
    }

    // Takes a change that is not refused and has room. It is returned where memory runs out.
    fn add(&mut self, change: Change) -> Result<(), Change>
        requires awake { self.old.awake ≡ true }
        requires applies { refusal_of (volume_of (staged_state self.old)) change ≡ None }
        requires room { sum_by frame_size self.old.rest + frame_size change ≤ self.old.room }
        ensures ok { OnOk result (self.new ≡ with_pending change self.old) }
        ensures err { IfErr result (λ back. (back ≡ change) × (self.new ≡ self.old)) }
    {
        let size = change.frame_size();
        let Ok(copy) = change.copy(self.alloc) else {
            return Err(change);
        };
        let Ok(()) = self.log.reserve(1) else {
            return Err(change);
        };
        match self.seen.apply(copy) {
            Ok(()) => {}
            Err(
                NotApplied {
                    error: ApplyError::NoMemory,
                    ..
                },
            ) => return Err(change),
            Err(
                NotApplied {
                    error: ApplyError::Refused(_),
                    ..
                },
            ) => unreachable!(),
        }
        self.log.push_reserved(change);
        self.free -= size;
        Ok(())
    }

    fn count_pending(&self) -> usize
        ensures { result ≡ length self.now.rest }
    {
        self.log.len() - self.stored
    }

    // All that was accepted is stored.
    fn keep_rest(&mut self)
        ensures { self.new ≡ all_stored self.old }
    {
        self.stored = self.log.len();
        self.room = self.free;
        self.is_torn = false;
    }

    // Gives up what is not stored.
    fn drop_rest(&mut self) -> Result<(), NoMemory>
        ensures ok { OnOk result (self.new ≡ record self.old { rest = [] }) }
        ensures err { OnErr result (self.new ≡ self.old) }
    {
        self.seen = replayed(self.alloc, &self.capacities, &self.log[..self.stored])?;
        self.log.truncate(self.stored);
        self.free = self.room;
        Ok(())
    }

    // Stores what is pending, unless the device fails.
    fn store(&mut self) -> Result<(), MediumError>
        requires { self.old.awake ≡ true }
        ensures { IsStoring self.old result self.new }
    {
        if self.stored < self.log.len() && self.store_fuse.blows() {
            self.failed = true;
            self.is_torn = self.tears;
            return Err(MediumError::Device);
        }
        self.keep_rest();
        Ok(())
    }

    fn close(&mut self)
        ensures { self.new ≡ closed self.old }
    {
        self.awake = false;
        self.failed = false;
    }

    // Opens it by what its side gives.
    fn open(&mut self) -> Result<(), NoMemory>
        ensures { IsOpening self.old result self.new }
    {
        if self.is_torn && self.keeps_torn {
            self.keep_rest();
        } else {
            self.drop_rest()?;
        }
        self.awake = true;
        self.failed = false;
        self.is_torn = false;
        Ok(())
    }
}
