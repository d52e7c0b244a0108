//! The end of a library: every buffer is written out, and the changes that the drives counted are compared with those
//! that were entered for the seats. The answers and the moves of all seats are added up.
ghost use Rattle.std.specs.Prelude.{◌≡◌, ◌≢◌, ◌+◌, ℕ, Err, Some, IfOk, OnOk, OnErr, is_some, length, vec_len};
ghost use Rattle.vtl_base.specs.declared.limits.TheConstants.{DRIVES};
ghost use Rattle.ledgers.specs.Ledgers.{no_share};
ghost use Rattle.bay_moves.specs.Elements.{bay_at};
ghost use Rattle.bay_moves.specs.Finish.{HasFailedAt, IsWrittenAt};
ghost use Rattle.library.specs.Counts.{count_of_drive, one_if_there, or_none, which_are_there};
ghost use Rattle.library.specs.Ends.{AddsUp, Balances, counts_of, sum_of_counts, sum_of_seats};
ghost use Rattle.library.specs.Inner.Ending.{HaveEnded, outcome_of, worse_of};
ghost use Rattle.library.specs.Keeps.{AreLeft, IsLeftAt, IsLeftByTurn};

use crate::inventories::known_slots;
use crate::libraries::Library;
use crate::places::{EndedPlace, Operator, Seat};
use crate::rows::Row;
use crate::sealed::Sealed;
use crate::shared::SharedBay;
use bay_moves::{Bay, Unwritten};
use ledgers::{Gathering, Parties, SeatsMissing};
use split_bay::Rings;
use std::fmt::Debug;
use std::sync::Wait;
use tape_disk::Disk;
use thiserror::Error;
use vtl_base::limits::DRIVES;

/// Why a library did not end well.
#[derive(Clone, Copy, PartialEq, Eq, Debug, Error)]
pub enum FinishError {
    /// The medium that is loaded in some drive has failed, before the last turn or in it; or a flusher's turn failed
    /// and no answer has reported that. So changes that a drive accepted may not be stored.
    #[error("not all is written out")]
    Unwritten,
    /// The drives accepted `total` changes, but the changes entered for the returned seats add up to only `seats`. So
    /// at least one seat is missing.
    #[error("seats with {seats} of {total} changes")]
    SeatsMissing { total: u64, seats: u64 },
}

/// The parts of a library that has ended, with or without an error.
#[derive(Drop)]
pub struct Finished<D: Disk> {
    /// The slots and the drives, with which nothing can be done any more.
    pub left: Sealed<D>,
    /// At Ok: for each drive number, from 1 on, how many changes the drive accepted, or None where there is no drive.
    /// These counts add up to the number of changes that were entered for the seats. Otherwise: why the library did not
    /// end well.
    pub counts: Result<[Option<u64>; 16], FinishError>,
    /// How many commands were answered for the hosts of the returned seats, all together, modulo 2^64.
    pub answered: u64,
    /// How many moves these hosts and the operator made, all together, modulo 2^64.
    pub moved: u64,
}

impl<D: Disk + Drop, B: Parties + Rings, H: Parties> Library<D, B, H> {
    /// Ends the library, which nothing else shares any more. Each drive takes a turn, which writes its buffer out. Then
    /// the number of changes that the drives accepted is compared with the number entered for `seats`. Drives and slots
    /// are returned even after an error, sealed. A failed medium, or a deferred error that stands, is reported before
    /// missing seats. The answers of the seats are added up, and so are their moves and those of `operator`. The call
    /// allocates no memory.
    pub fn finish<R: Wait>(self, rt: &R, seats: Vec<Seat<H>>, operator: Operator<H>) -> Finished<D>
        ensures drives { which_are_there result.left.bays ≡ self }
        ensures counts { IfOk result.counts (λ counts. (counts ≡ counts_of result.left.bays)
            × (sum_of_counts counts ≡ sum_of_seats seats.items)) }

        // An error has its cause: a drive has failed, or else the seats have fewer changes than the drives.
        ensures unwritten { result.counts ≡ Err FinishError.Unwritten
            → (number : ℕ) × HasFailedAt D.state (bay_at result.left.bays number) }
        ensures written { result.counts ≢ Err FinishError.Unwritten
            → (number : ℕ) → IsWrittenAt D.state (bay_at result.left.bays number) }

        // The sums, whatever the result is: of the changes, and of answers and moves.
        ensures sums { Balances (vec_len seats) H.all (sum_of_counts (counts_of result.left.bays))
            (sum_of_seats seats.items) result.counts }
        ensures used { AddsUp seats.items operator result.answered result.moved }
        ensures left { AreLeft D.state result.left.slots result.left.bays }
    {
        let Library {
            alloc: _,
            bays,
            slots,
            tally,
            row,
            closed: _,
        } = self;
        let mut row = row.into_inner();
        let mut gathering = tally.into_inner().gather();
        let written = end_drives(rt, bays, &mut row, &mut gathering);
        let Used { answered, moved } = take_seats(seats, operator, &mut gathering);
        let counts = outcome(written, counts_in(&row), gathering.compare());
        let slots = slots.into_inner().into_slots();
        known_slots(&slots);
        Finished {
            left: Sealed::from_parts(row.into_places(), slots),
            counts,
            answered,
            moved,
        }
    }
}

// The result at the end of a library: a buffer that is not written out is reported first.
fn outcome(
    written: Result<(), Unwritten>,
    counts: [Option<u64>; 16],
    compared: Result<u64, SeatsMissing>,
) -> Result<[Option<u64>; 16], FinishError>
    ensures { result ≡ outcome_of written counts compared }
{
    if written.is_err() {
        return Err(FinishError::Unwritten);
    }
    match compared {
        Ok(_) => Ok(counts),
        Err(SeatsMissing { total, seats }) => Err(FinishError::SeatsMissing { total, seats }),
    }
}

// Takes each drive out from behind its locks, has it take a turn, puts it into the row, and gathers its share.
fn end_drives<D: Disk + Drop, B: Parties + Rings, H: Parties, R: Wait>(
    rt: &R,
    bays: Vec<Option<SharedBay<D, B>>>,
    row: &mut Row<D>,
    gathering: &mut Gathering<B, H>,
) -> Result<(), Unwritten>
    requires all { length bays.items ≡ DRIVES }
    requires none { gathering.old.bays ≡ no_share }
    ensures ended { HaveEnded D.state bays.items row.new gathering.new.bays result }
    ensures hosts { (gathering.new.total ≡ gathering.old.total) × (gathering.new.hosts ≡ gathering.old.hosts) }
{
    row.known();
    let mut bays = bays;
    let mut written = Ok(());
    while let Some(bay) = bays.pop() {
        let DriveEnd { bay, written: one } = end_drive(rt, bay, gathering);
        row.put(bays.len(), bay);
        written = worse(written, one);
    }
    written
}

// A drive at the end, if there is one, and whether its loaded medium has stored all that it accepted.
#[derive(Drop)]
struct DriveEnd<D: Disk> {
    bay: Option<Bay<D>>,
    written: Result<(), Unwritten>,
}

// The first of two errors, if there is one.
fn worse(first: Result<(), Unwritten>, second: Result<(), Unwritten>) -> Result<(), Unwritten>
    ensures { result ≡ worse_of first second }
{
    if first.is_err() { first } else { second }
}

// Takes a drive, if there is one, out from behind its locks, has it take a turn, and gathers its share.
fn end_drive<D: Disk + Drop, B: Parties + Rings, H: Parties, R: Wait>(
    rt: &R,
    bay: Option<SharedBay<D, B>>,
    gathering: &mut Gathering<B, H>,
) -> DriveEnd<D>
    ensures there { is_some result.bay ≡ is_some bay }
    ensures shares { gathering.new.bays.shares ≡ gathering.old.bays.shares + one_if_there bay }
    ensures changes { gathering.new.bays.changes ≡ gathering.old.bays.changes + or_none (count_of_drive result.bay) }
    ensures hosts { (gathering.new.total ≡ gathering.old.total) × (gathering.new.hosts ≡ gathering.old.hosts) }
    ensures left { IsLeftAt D.state result.bay }
    ensures ok { OnOk result.written (IsWrittenAt D.state result.bay) }
    ensures err { OnErr result.written (HasFailedAt D.state result.bay) }
{
    let Some(shared) = bay else {
        return DriveEnd {
            bay: None,
            written: Ok(()),
        };
    };
    let EndedPlace {
        bay,
        share,
        written,
    } = end_shared(rt, shared);
    gathering.take_bay(share);
    DriveEnd {
        bay: Some(bay),
        written,
    }
}

// Takes both halves of a drive out from behind their locks; together they take a turn.
fn end_shared<D: Disk + Drop, B: Parties + Rings, R: Wait>(
    rt: &R,
    shared: SharedBay<D, B>,
) -> EndedPlace<D, B>
    ensures left { IsLeftByTurn D.state result.bay }
    ensures share { result.share ≡ result.bay.accepted }
    ensures ok { OnOk result.written (IsWrittenAt D.state (Some result.bay)) }
    ensures err { OnErr result.written (HasFailedAt D.state (Some result.bay)) }
{
    let (front, back) = shared.into_places();
    front.end(back, rt)
}

// The count of each drive of a row.
fn counts_in<D: Disk + Drop>(row: &Row<D>) -> [Option<u64>; 16]
    ensures { result ≡ counts_of row.now }
{
    row.known();
    let mut counts = [None; 16];
    for place in 0..DRIVES as usize {
        counts[place] = row.count(place);
    }
    counts
}

// How many commands were answered for the hosts of some seats, and how many moves they and the operator made, all
// together, modulo 2^64.
#[derive(Drop)]
struct Used {
    answered: u64,
    moved: u64,
}

// Takes back the seats and the operator's token, and adds up what they counted.
fn take_seats<B: Parties, H: Parties>(
    seats: Vec<Seat<H>>,
    operator: Operator<H>,
    gathering: &mut Gathering<B, H>,
) -> Used
    ensures shares { gathering.new.hosts.shares ≡ gathering.old.hosts.shares + vec_len seats }
    ensures changes { gathering.new.hosts.changes ≡ gathering.old.hosts.changes + sum_of_seats seats.items }
    ensures bays { (gathering.new.total ≡ gathering.old.total) × (gathering.new.bays ≡ gathering.old.bays) }
    ensures used { AddsUp seats.items operator result.answered result.moved }
{
    let mut seats = seats;
    let mut answered = 0u64;
    let mut moved = operator.moved();
    while let Some(seat) = seats.pop() {
        answered = answered.wrapping_add(seat.answered());
        moved = moved.wrapping_add(seat.moved());
        gathering.take_host(seat.into_share());
    }
    Used { answered, moved }
}
