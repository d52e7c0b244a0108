//! The medium below a drive: a volume with its catalog, which accepts changes and stores them.
ghost use Rattle.std.specs.Prelude.{◌≡◌, ℕ, Bool, ◌<◌, ◌≤◌, ◌↔◌, ◌++◌, [], List, IsTrue, true, false, Some, Err, OnOk, OnErr, IfErr, IfSome, length, vec_capacity};
ghost use Rattle.vtl_base.specs.declared.limits.TheConstants.{MAX_BLOCK, MAX_CAPACITY, MAX_OBJECTS, MAX_PARTITIONS};
ghost use Rattle.vtl_base.specs.Below.{Below, Advances};
ghost use Rattle.volume_core.specs.declared.changes.Change.{Change};
ghost use Rattle.volume_core.specs.declared.changes.Change.TheVariants.{Put, Marks, Erase};
ghost use Rattle.volume_core.specs.declared.objects.Kind.TheVariants as Kinds;
ghost use Rattle.volume_core.specs.declared.media.MediumError.TheVariants as Errors;
ghost use Rattle.volume_core.specs.Volume.{IsMarkOf, block_at, capacity_of, count_of, kind_at, mark_count, marks_upto, used_up_to};
ghost use Rattle.volume_core.specs.Medium.{MediumState, block_bytes, volume_of, Accepts, HasRoomFor, Fetches, Settles, Turns, Parks, Wakes, accept_answer, accepted_by, met_fault, turn_met_fault};
ghost use Rattle.volume_core.specs.Stores.{Stores};

use crate::changes::{Change, Refusal};
use crate::objects::Kind;
use thiserror::Error;
use vtl_base::{Bytes, ObjNo, PartNo};

/// Why a call on a medium is refused or fails.
#[derive(Clone, Copy, PartialEq, Eq, Debug, Error)]
pub enum MediumError {
    /// The change itself is refused, for this cause. Nothing has changed.
    #[error("refused")]
    Refused(Refusal),
    /// Memory ran out. If the call was to accept a change, the side (the bytes of the medium's file) has room for that
    /// change and for those that were pending. The volume is as it was, but changes that were pending may have been
    /// stored.
    #[error("out of memory")]
    NoMemory,
    /// The side has no room for what is pending together with this change. Nothing has changed.
    #[error("side full")]
    SideFull,
    /// The device failed in this call. A medium that was awake has failed, and its volume is as it was. A parked medium
    /// stays parked and has not failed; if it was never opened before, its side may now hold another volume, or none.
    #[error("device fault")]
    Device,
    /// The medium failed in an earlier call. Nothing has changed.
    #[error("medium failed")]
    Failed,
    /// The side of a parked medium holds no volume that can be read. The medium stays parked, and nothing has changed.
    #[error("unreadable")]
    Unreadable,
}

/// A change that a medium did not accept, and why. The volume is as it was.
#[derive(Drop)]
pub struct NotAccepted {
    /// Why it was not accepted.
    pub error: MediumError,
    /// The change, as it was.
    pub change: Change,
}

/// What a flusher's turn did.
#[derive(Clone, Copy, PartialEq, Eq, Debug)]
pub enum Turn {
    /// Nothing was pending, or the medium had failed before. Nothing has changed.
    Idle,
    /// All pending changes were stored: this many, at least 1.
    Stored(usize),
    /// The device failed in this turn. The volume is as it was, and the medium has failed.
    Device,
}

// The result of `accept`, without the change that was not accepted.
fn without_change(accepted: Result<(), NotAccepted>) -> Result<(), MediumError>
    ensures { result ≡ accept_answer accepted }
{
    match accepted {
        Ok(()) => Ok(()),
        Err(refused) => Err(refused.error),
    }
}

/// The catalog of a volume: its partitions and its objects, without the bytes of blocks. Each call needs the medium to
/// be awake.
pub trait Catalog {
    /// The state of the medium, as a contract sees it.
    ghost state: { Self → MediumState };

    /// How many partitions there are, 1 to 4.
    fn parts(&self) -> PartNo
        requires { (state self.now).awake ≡ true }
        ensures parts { result ≡ length (volume_of (state self.now)) }
        ensures some { 1 ≤ result }
        ensures few { result ≤ MAX_PARTITIONS };

    /// The capacity of a partition in bytes, 0 where there is no such partition.
    fn capacity(&self, part: PartNo) -> u64
        requires { (state self.now).awake ≡ true }
        ensures capacity { result ≡ capacity_of (volume_of (state self.now)) part }
        ensures bound { result ≤ MAX_CAPACITY };

    /// How many objects a partition has, 0 where there is no such partition.
    fn count(&self, part: PartNo) -> u32
        requires { (state self.now).awake ≡ true }
        ensures count { result ≡ count_of (volume_of (state self.now)) part }
        ensures bound { result ≤ MAX_OBJECTS };

    /// The kind of the object with number `at` in a partition: a block or a filemark. None where there is no such
    /// object.
    fn kind_at(&self, part: PartNo, at: ObjNo) -> Option<Kind>
        requires { (state self.now).awake ≡ true }
        ensures { result ≡ kind_at (volume_of (state self.now)) part at };

    /// How many bytes of a partition's capacity its first `n` objects take. If it has fewer objects, all of them are
    /// counted.
    fn used(&self, part: PartNo, n: ObjNo) -> u64
        requires { (state self.now).awake ≡ true }
        ensures used { result ≡ used_up_to (volume_of (state self.now)) part n }
        ensures bound { result ≤ capacity_of (volume_of (state self.now)) part };

    /// How many filemarks are among the first `n` objects of a partition. Where it has fewer objects, all its filemarks
    /// are counted.
    fn marks_upto(&self, part: PartNo, n: ObjNo) -> u32
        requires { (state self.now).awake ≡ true }
        ensures marks { result ≡ marks_upto (volume_of (state self.now)) part n }
        ensures bound { result ≤ MAX_OBJECTS };

    /// The object number of filemark `k` of a partition, whose first filemark is filemark 0. The partition must have
    /// more than `k` filemarks.
    fn mark_at(&self, part: PartNo, k: u32) -> ObjNo
        requires awake { (state self.now).awake ≡ true }
        requires mark { k < mark_count (volume_of (state self.now)) part }
        ensures { IsMarkOf (volume_of (state self.now)) part k result };
}

/// A volume that accepts changes. A change that is accepted and not stored yet is pending; it is stored at the latest
/// when the caller asks for it. A medium is either awake or parked: closed, so that it may be moved. Each call except
/// `wake` needs it to be awake.
pub trait Medium: Catalog {
    /// What a contract sees below the medium: how often its device has failed; whether the device keeps the promises of
    /// a disk (in memory, always); whether the device is at hand; which changes the medium accepted between one of its
    /// values and a later one; and when the side is left alone between the two. A call that may need the device is made
    /// only while the device is at hand.
    ghost below: { Below Self Change };

    /// Whether the medium can answer a change without its device, which then need not be at hand. The number is the
    /// length of the change's block in bytes, 0 for a change without a block.
    ghost alone: { Self → ℕ → Bool };

    /// Accepts a change, which cuts its partition after the objects that stay and then appends those that it adds. A
    /// change that is not accepted is returned with the error.
    fn accept(&mut self, change: Change) -> Result<(), NotAccepted>
        requires awake { (Self.state self.old).awake ≡ true }
        requires hand { alone self.old (block_bytes change) ≡ false → below.at_hand self.old }
        ensures answer { Accepts (Self.state self.old) change (accept_answer result)
            (Self.state self.new) }
        ensures returned { IfErr result (λ refused. refused.change ≡ change) }
        ensures stores { Stores (Self.state self.old) (accepted_by (accept_answer result) change)
            (Self.state self.new) }
        ensures advances { Advances below self.old (accepted_by (accept_answer result) change)
            (met_fault (accept_answer result)) self.new }
        ensures device { alone self.old (block_bytes change) ≡ true → met_fault (accept_answer result) ≡ false };

    /// Cuts a partition after its first `at` objects and appends a block, as one change. The objects after the cut are
    /// gone.
    fn put(&mut self, part: PartNo, at: ObjNo, block: Bytes) -> Result<(), MediumError>
        requires awake { (Self.state self.old).awake ≡ true }
        requires hand { alone self.old (length block) ≡ false → below.at_hand self.old }
        ensures answer { Accepts (Self.state self.old) (Put part at block) result
            (Self.state self.new) }
        ensures stores { Stores (Self.state self.old) (accepted_by result (Put part at block))
            (Self.state self.new) }
        ensures advances { Advances below
            self.old (accepted_by result (Put part at block)) (met_fault result) self.new }
        ensures device { alone self.old (length block) ≡ true → met_fault result ≡ false }
    {
        without_change(self.accept(Change::Put { part, at, block }))
    }

    /// Cuts a partition after its first `at` objects and appends `count` filemarks, as one change. The objects after
    /// the cut are gone.
    fn marks(&mut self, part: PartNo, at: ObjNo, count: u32) -> Result<(), MediumError>
        requires awake { (Self.state self.old).awake ≡ true }
        requires hand { alone self.old 0 ≡ false → below.at_hand self.old }
        ensures answer { Accepts (Self.state self.old) (Marks part at count) result
            (Self.state self.new) }
        ensures stores { Stores (Self.state self.old) (accepted_by result (Marks part at count))
            (Self.state self.new) }
        ensures advances { Advances below
            self.old (accepted_by result (Marks part at count)) (met_fault result) self.new }
        ensures device { alone self.old 0 ≡ true → met_fault result ≡ false }
    {
        without_change(self.accept(Change::Marks { part, at, count }))
    }

    /// Cuts a partition after its first `at` objects: all later objects are erased.
    fn erase(&mut self, part: PartNo, at: ObjNo) -> Result<(), MediumError>
        requires awake { (Self.state self.old).awake ≡ true }
        requires hand { alone self.old 0 ≡ false → below.at_hand self.old }
        ensures answer { Accepts (Self.state self.old) (Erase part at) result
            (Self.state self.new) }
        ensures stores { Stores (Self.state self.old) (accepted_by result (Erase part at))
            (Self.state self.new) }
        ensures advances { Advances below
            self.old (accepted_by result (Erase part at)) (met_fault result) self.new }
        ensures device { alone self.old 0 ≡ true → met_fault result ≡ false }
    {
        without_change(self.accept(Change::Erase { part, at }))
    }

    /// Reads the block with object number `at` of a partition into `into`, in place of what `into` held. The partition
    /// must have an object with this number, and it must be a block. Memory runs out only where the capacity of `into`
    /// is less than the length of the block. After an error `into` may hold any bytes.
    fn fetch(&mut self, part: PartNo, at: ObjNo, into: &mut Vec<u8>) -> Result<(), MediumError>
        requires awake { (Self.state self.old).awake ≡ true }
        requires hand { below.at_hand self.old }
        requires block { kind_at (volume_of (Self.state self.old)) part at ≡ Some Kinds.Block }
        ensures bytes { below.honest self.old → OnOk result
            (block_at (volume_of (Self.state self.old)) part at ≡ Some into.new.items) }
        ensures bound { OnOk result (length into.new.items ≤ MAX_BLOCK) }
        ensures answer { Fetches (Self.state self.old) result (Self.state self.new) }
        ensures memory { result ≡ Err Errors.NoMemory →
            IfSome (block_at (volume_of (Self.state self.old)) part at)
            (λ block. vec_capacity into.old < length block) }
        ensures stores { Stores (Self.state self.old) [] (Self.state self.new) }
        ensures advances { Advances below self.old [] (met_fault result) self.new };

    /// Stores all pending changes. It needs no memory.
    fn settle(&mut self) -> Result<(), MediumError>
        requires awake { (Self.state self.old).awake ≡ true }
        requires hand { below.at_hand self.old }
        ensures answer { Settles (Self.state self.old) result (Self.state self.new) }
        ensures stores { Stores (Self.state self.old) [] (Self.state self.new) }
        ensures advances { Advances below self.old [] (met_fault result) self.new };

    /// Takes a flusher's turn, which stores all pending changes. It needs no memory.
    fn flush_turn(&mut self) -> Turn
        requires awake { (Self.state self.old).awake ≡ true }
        requires hand { below.at_hand self.old }
        ensures answer { Turns (Self.state self.old) result (Self.state self.new) }
        ensures stores { Stores (Self.state self.old) [] (Self.state self.new) }
        ensures advances { Advances below self.old [] (turn_met_fault result) self.new };

    /// Stores all pending changes, and then closes the medium. A medium that has failed is closed too, and its pending
    /// changes are dropped. If the device fails in this call, the medium is still awake, and has failed.
    fn park(&mut self) -> Result<(), MediumError>
        requires awake { (Self.state self.old).awake ≡ true }
        requires hand { below.at_hand self.old }
        ensures answer { Parks (below.honest self.old) (Self.state self.old) result
            (Self.state self.new) }
        ensures stores { OnErr result (Stores (Self.state self.old) [] (Self.state self.new)) }
        ensures advances { Advances below self.old [] (met_fault result) self.new };

    /// Opens a parked medium; after an error it stays parked. A medium that is awake stays as it is, and the result is
    /// the error `Failed` if it has failed, or else `Ok`. What the side of a parked medium holds after the call is
    /// known only if its device keeps the promises of a disk. Whatever the result is, the side is left alone.
    fn wake(&mut self) -> Result<(), MediumError>
        requires { below.at_hand self.old }
        ensures answer { Wakes (below.honest self.old) (Self.state self.old) result
            (Self.state self.new) }
        ensures advances { Advances below self.old [] (met_fault result) self.new }
        ensures alone { below.left_alone self.old self.new };

    /// Whether the side has room for what is pending together with a change whose block has `bytes` bytes, 0 for a
    /// change without a block. Where the result is false, `accept` returns `SideFull` for such a change, unless it
    /// refuses the change or the medium has failed.
    fn has_room_for(&self, bytes: u32) -> bool
        requires { (Self.state self.now).awake ≡ true }
        ensures { IsTrue result
            ↔ HasRoomFor (Self.state self.now).room (Self.state self.now).pending bytes };

    /// Whether the medium can answer a change without its device. The change's block has `bytes` bytes, 0 for a change
    /// without a block.
    fn takes_alone(&self, bytes: u32) -> bool
        requires { (Self.state self.now).awake ≡ true }
        ensures { result ≡ alone self.now bytes };

    /// How many changes are pending.
    fn pending(&self) -> usize
        requires { (Self.state self.now).awake ≡ true }
        ensures { result ≡ length (Self.state self.now).pending };

    /// Whether the device has failed since the medium was opened. If it has, no change is accepted and no block is
    /// read.
    fn has_failed(&self) -> bool
        requires { (Self.state self.now).awake ≡ true }
        ensures { result ≡ (Self.state self.now).failed };

    /// Where no call is made, no change is accepted and the device does not fail.
    ghost advances_nowhere: { (medium : Self) → Advances below medium [] false medium };

    /// A medium that is awake was opened before.
    ghost awake_is_read: { (medium : Self) →
        (Self.state medium).awake ≡ true → (Self.state medium).unread ≡ false };

    /// Where no call is made, nothing is stored.
    ghost stores_nowhere: { (medium : Self) →
        Stores (Self.state medium) [] (Self.state medium) };

    /// Two runs of calls, one after the other, accept the changes of the first run, followed by those of the second.
    ghost moves_on: { (a b c : Self) (first second : List Change)
        → below.moves a first b → below.moves b second c → below.moves a (first ++ second) c };
}
