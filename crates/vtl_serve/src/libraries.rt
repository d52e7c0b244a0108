//! Serves all hosts of a library at the same time, by one input and one output.
ghost use Rattle.std.specs.Prelude.{◌≡◌, ◌≤◌, [], IfOk, IfErr, length, All, vec_capacity};
ghost use Rattle.std.specs.List.{range_with_len};
ghost use Rattle.vtl_base.specs.declared.limits.TheConstants.{DRIVES, NEXUSES};
ghost use Rattle.ledgers.specs.Ledgers.{IsBlankOf};
ghost use Rattle.library.specs.Counts.{AcceptedNone, places_filled, which_are_there};
ghost use Rattle.library.specs.Ends.{EndsShared};
ghost use Rattle.library.specs.RingRows.{AreRings};
ghost use Rattle.vtl_hosts.specs.Turns.{ServesHosts};
ghost use Rattle.vtl_serve.specs.Desks.{AnswersDesk, TakesMemory, is_served};
ghost use Rattle.vtl_serve.specs.OneHost.{AnswersHost};
ghost use Rattle.vtl_serve.specs.Libraries.{ServesOpened, ServesShared, hosts_of, seats_of};

use crate::desks::LibraryDesk;
use crate::labels::Labels;
use crate::one_host::OneHost;
use ledgers::Parties;
use library::{Finished, Gate, Library, Operator, Rings, Sealed, Seat, Unopened, beside_flushers};
use std::alloc::Global;
use std::io::{Read, Write};
use std::marker::{Send, Sync};
use std::mem;
use std::sync::Wait;
use std::thread::Threads;
use std::time::Clock;
use tape_disk::Disk;
use vtl_base::limits::NEXUSES;
use vtl_hosts::{Served, serve_hosts};
use vtl_wire::WireFault;

/// What remains of a library after its hosts were served.
#[derive(Drop)]
pub struct ServedLibrary<D: Disk> {
    /// The slots and drives, and how the library ended.
    pub finished: Finished<D>,
    /// Ok where the input was served to its end; otherwise the fault that ended the serving.
    pub outcome: Result<(), WireFault>,
}

// The seats of all hosts, the operator, and where the cartridges are.
#[derive(Drop)]
struct Seated<H: Parties> {
    seats: Vec<Seat<H>>,
    operator: Operator<H>,
    labels: Labels,
}

// The seats and the operator after the serving, and how the serving ended.
#[derive(Drop)]
struct ServedFor<H: Parties> {
    seats: Vec<Seat<H>>,
    operator: Operator<H>,
    outcome: Result<(), WireFault>,
}

// The hosts that have these seats, in `room`.
fn hosts_of<'a, D: Disk + Drop, B: Parties + Rings, H: Parties, R>(
    rt: &'a R,
    library: &'a Library<D, B, H>,
    room: Vec<OneHost<'a, D, B, H, R>>,
    seats: Vec<Seat<H>>,
) -> Vec<OneHost<'a, D, B, H, R>>
    requires { (room.items ≡ []) × (length seats.items ≤ vec_capacity room) }
    ensures { result.items ≡ hosts_of library.now seats.items }
{
    let mut hosts = room;
    for seat in seats {
        hosts.push(OneHost::new(rt, library, seat)).unwrap();
    }
    hosts
}

// The seats of these hosts, in `room`.
fn seats_in<'a, D: Disk + Drop, B: Parties + Rings, H: Parties, R>(
    room: Vec<Seat<H>>,
    hosts: Vec<OneHost<'a, D, B, H, R>>,
) -> Vec<Seat<H>>
    requires { (room.items ≡ []) × (length hosts.items ≤ vec_capacity room) }
    ensures { result.items ≡ seats_of hosts.entry.items }
{
    let mut seats = room;
    for host in hosts {
        seats.push(host.into_seat()).unwrap();
    }
    seats
}

// Serves a library that was opened, for the hosts of these seats, and for the operator, who makes the moves, while each
// drive has a flusher beside them; then closes it, so that every flusher ends.
fn serve_opened<
    'a,
    D: Disk + Drop + Send,
    B: Parties + Rings + Send + Sync,
    H: Parties + Send + Sync,
    R: Threads + Wait + Clock + Sync,
    G: Gate + Sync,
    I: Read,
    W: Write + Send,
>(
    rt: &'a R,
    alloc: Global,
    library: &'a Library<D, B, H>,
    seated: Seated<H>,
    gate: &G,
    reader: &mut I,
    writer: &mut W,
) -> ServedFor<H>
    requires { length seated.seats.items ≡ NEXUSES }
    ensures serves { ServesOpened D.state library.now seated.labels seated.operator seated.seats.items
        (I.remaining reader.old) (W.contents writer.old) result.operator result.seats.items (I.remaining reader.new)
        (W.contents writer.new) result.outcome }
    ensures all { length result.seats.items ≡ NEXUSES }
{
    let Seated {
        seats,
        operator,
        labels,
    } = seated;
    let (Ok(room), Ok(back)) = (
        Vec::with_capacity(alloc, NEXUSES as usize),
        Vec::with_capacity(alloc, NEXUSES as usize),
    ) else {
        return ServedFor {
            seats,
            operator,
            outcome: Err(WireFault::NoMemory),
        };
    };
    let mut hosts = hosts_of(rt, library, room, seats);
    let mut desk = LibraryDesk::new(rt, library, operator, labels);
    let mut work = || -> Result<Served<OneHost<'_, D, B, H, R>>, Vec<OneHost<'_, D, B, H, R>>>
        requires { length hosts.items ≡ NEXUSES }
        ensures serves { IfOk result (λ served. ServesHosts (AnswersHost D.state)
            (λ desk request. is_served desk.drives request) (AnswersDesk D.state)
            (λ desk request. TakesMemory request)
            (record { hosts = hosts.entry.items; desk = desk.entry }) (I.remaining reader.entry.now)
            (W.contents writer.entry.now) (record { hosts = served.servers.items; desk = desk.exit })
            (I.remaining reader.exit.now) (W.contents writer.exit.now) served.outcome) }
        ensures all { IfOk result (λ served. length served.servers.items ≡ NEXUSES) }
        ensures back { IfErr result (λ back. (back.items ≡ hosts.entry.items) × (desk.exit ≡ desk.entry)
            × (reader.exit.now ≡ reader.entry.now) × (writer.exit.now ≡ writer.entry.now)) }
    {
        let servers = mem::replace(&mut hosts, Vec::new(alloc));
        let served = serve_hosts(rt, alloc, servers, &mut desk, reader, writer);
        library.close(rt);
        served
    };
    match beside_flushers(rt, library, gate, 1, &mut work) {
        Ok(Served { servers, outcome }) => ServedFor {
            seats: seats_in(back, servers),
            operator: desk.into_operator(),
            outcome,
        },
        Err(servers) => ServedFor {
            seats: seats_in(back, servers),
            operator: desk.into_operator(),
            outcome: Err(WireFault::NoMemory),
        },
    }
}

/// Opens the library of these parts, serves its hosts, which have the numbers 1 to 64, and ends it. `labels` says where
/// the cartridges are. The requests of all hosts are read from `reader`, and all answers are written to `writer`. Each
/// host's commands are carried out in a thread of its own. Beside these threads each drive has a flusher, which asks
/// `gate` before each of its turns. At the end all threads are joined, and every buffer is written out. If memory runs
/// out before the library is open, slots and drives are returned, sealed, and nothing is read or written.
pub fn serve_library<
    D: Disk + Drop + Send,
    B: Parties + Rings + Send + Sync,
    H: Parties + Send + Sync,
    R: Threads + Wait + Clock + Sync,
    G: Gate + Sync,
    I: Read,
    W: Write + Send,
>(
    rt: &R,
    alloc: Global,
    parts: Unopened<'_, D>,
    labels: Labels,
    gate: &G,
    reader: &mut I,
    writer: &mut W,
) -> Result<ServedLibrary<D>, Sealed<D>>
    requires places { length parts.bays.items ≡ DRIVES }
    requires fresh { All (λ bay. AcceptedNone bay) parts.bays.items }
    requires rings { (which_are_there parts.rings ≡ which_are_there parts.bays.items) × AreRings B.ring parts.rings }
    requires hosts { parts.hosts.now ≡ range_with_len 1 NEXUSES }
    requires bay_ledger { IsBlankOf parts.bay_ledger B.name B.parts B.all × (B.all ≡ places_filled parts.bays.items) }
    requires host_ledger { IsBlankOf parts.host_ledger H.name H.parts H.all × (H.all ≡ NEXUSES) }
    ensures serves { IfOk result (λ served. ServesShared D.state parts.entry.bays.items labels parts.entry.hosts.now
        (I.remaining reader.old) (W.contents writer.old) (I.remaining reader.new) (W.contents writer.new) served.outcome
        served.finished.left.bays served.finished.counts served.finished.answered served.finished.moved) }
    ensures ends { IfOk result (λ served. EndsShared D.state parts.entry.bays.items served.finished.left.bays
        served.finished.left.slots served.finished.counts) }
    ensures back { IfErr result (λ back. (back ≡ record { slots = parts.entry.slots; bays = parts.entry.bays.items })
        × (reader.new ≡ reader.old) × (writer.new ≡ writer.old)) }
{
    let (library, seats, operator) = Library::<D, B, H>::new(alloc, parts)?;
    let seated = Seated {
        seats,
        operator,
        labels,
    };
    let ServedFor {
        seats,
        operator,
        outcome,
    } = serve_opened(rt, alloc, &library, seated, gate, reader, writer);
    Ok(ServedLibrary {
        finished: library.finish(rt, seats, operator),
        outcome,
    })
}
