//! Commands of hosts to a drive over a store, their answers, and what is seen on a disk.
ghost use Rattle.std.specs.Prelude.{◌≡◌, [], IfOk};
ghost use Rattle.aptpl_store.specs.Kept.{store_kept};
ghost use Rattle.drive_commands.specs.State.{left_of};

use aptpl_store::{AptplStore, StoreError, StoreRefused};
use drive_commands::Drive;
use pr_core::{PrState, Reservations};
use scsi_sense::Reply;
use std::alloc::Global;
use std::process::Abort;
use tape_disk::{Disk, MemDisk};
use test_assertions::{assert_equal, assert_holds};
use volume_core::PlainMedium;
use vtl_base::{DevFault, DriveNo, Nexus};

/// An empty drive over a store.
pub type Host<D> = Drive<PlainMedium, AptplStore<D>>;

/// A host, its command and the bytes that it sends; the status of the answer, with sense data or with bytes;
/// and how many frames the store has then.
pub type Row = (u8, &'static [u8], &'static [u8], u8, &'static [u8], usize);

pub const GOOD: u8 = 0x00;

pub const CHECK: u8 = 0x02;

pub const CONFLICT: u8 = 0x18;

pub const NONE: &'static [u8] = b"";

pub const POWERED_ON: &'static [u8] = b"\x70\0\x06\0\0\0\0\x0a\0\0\0\0\x29\0\0\0\0\0";

pub const FAILED: &'static [u8] = b"\x70\0\x04\0\0\0\0\x0a\0\0\0\0\x44\0\0\0\0\0";

pub const TEST_UNIT_READY: &'static [u8] = b"\0\0\0\0\0\0";

pub const REWIND: &'static [u8] = b"\x01\0\0\0\0\0";

pub const REGISTER: &'static [u8] = b"\x5f\0\0\0\0\0\0\0\x18\0";

pub const REGISTER_AND_IGNORE: &'static [u8] = b"\x5f\x06\0\0\0\0\0\0\x18\0";

pub const RESERVE_5: &'static [u8] = b"\x5f\x01\x05\0\0\0\0\0\x18\0";

pub const READ_KEYS: &'static [u8] = b"\x5e\0\0\0\0\0\0\0\x10\0";

pub const READ_RESERVATION: &'static [u8] = b"\x5e\x01\0\0\0\0\0\0\x18\0";

/// Parameter lists: the reservation key, the key of the service action, and APTPL in the last row.
pub const A_NEW: &'static [u8] = b"\0\0\0\0\0\0\0\0\0\0\0\0\0\0\0\xa1\0\0\0\0\x01\0\0\0";

pub const BY_A: &'static [u8] = b"\0\0\0\0\0\0\0\xa1\0\0\0\0\0\0\0\0\0\0\0\0\0\0\0\0";

pub const A_OVER_A: &'static [u8] = b"\0\0\0\0\0\0\0\xa1\0\0\0\0\0\0\0\xa1\0\0\0\0\x01\0\0\0";

pub const A_WITHOUT_APTPL: &'static [u8] = b"\0\0\0\0\0\0\0\xa1\0\0\0\0\0\0\0\xa1\0\0\0\0\0\0\0\0";

pub const NO_KEYS: &'static [u8] = b"\0\0\0\0\0\0\0\0";

/// A new store of drive 1.
pub fn made<D: Disk + Drop>(alloc: Global, disk: D) -> Result<AptplStore<D>, StoreRefused<D>>
    ensures { IfOk result (λ store. store.states ≡ []) }
{
    let Some(drive) = DriveNo::new(1) else {
        unreachable!()
    };
    AptplStore::create(alloc, disk, drive)
}

fn switched_on<D: Disk + Drop>(
    alloc: Global,
    store: AptplStore<D>,
    left: Reservations,
) -> Result<Host<D>, StoreRefused<D>>
    requires { left ≡ left_of (store_kept store).saved }
{
    match Drive::power_on(alloc, store, left, None) {
        Ok(drive) => Ok(drive),
        Err((_, store, _)) => Err(StoreRefused {
            error: StoreError::NoMemory,
            disk: store.close(),
        }),
    }
}

/// A drive that was just switched on, over a new store of drive 1.
pub fn new_host<D: Disk + Drop>(alloc: Global, disk: D) -> Result<Host<D>, StoreRefused<D>> {
    switched_on(alloc, made(alloc, disk)?, Reservations::empty())
}

/// A drive that was just switched on, over the store on the disk.
pub fn host_over<D: Disk + Drop>(alloc: Global, disk: D) -> Result<Host<D>, StoreRefused<D>> {
    let (store, left) = AptplStore::open(alloc, disk)?;
    switched_on(alloc, store, left)
}

// Whether a reply has this status, with this sense data or these bytes.
fn is_answer(reply: &Reply, status: u8, wanted: &[u8]) -> bool {
    let is_reported = match &reply.sense {
        Some(sense) => sense.bytes().as_slice() == wanted && reply.bytes.is_empty(),
        None => reply.bytes.as_slice() == wanted,
    };
    reply.status.code() == status && is_reported
}

/// Commands of hosts, one after another, have these answers.
pub fn ask_all<D: Disk + Drop>(rt: &impl Abort, drive: &mut Host<D>, rows: &[Row]) {
    for (at, (host, cdb, sent, status, wanted, frames)) in rows.iter().enumerate() {
        let nexus = Nexus::new(*host).expect(rt, "a nexus");
        let reply = drive.execute(nexus, cdb, sent);
        assert_holds!(rt; is_answer(&reply, *status, wanted); at);
        assert_equal!(rt; drive.keeper().frames(), *frames; at);
    }
}

/// A store of drive 1 with no frames.
pub const NEW_SIDE: &'static [u8] = b"\xa5VTLRESV1\0\0DRIVE1          \0";

/// The store of drive 1 after host 1 has registered a1 with APTPL and reserved type 5: its gates are at 27,
/// 45 and 63.
pub const SIDE: &'static [u8] = b"\xa5VTLRESV1\0\0DRIVE1          \
    \xa5\0\0\0\x0d\x01\0\0\x01\x01\0\0\0\0\0\0\0\xa1\
    \xa5\0\0\0\x0d\x01\x05\x01\x01\x01\0\0\0\0\0\0\0\xa1\
    \0";

/// The same; behind its end gate the next frame of `SIDE_WITHOUT_APTPL` with a closed gate, and two bytes.
pub const SIDE_WITH_TAIL: &'static [u8] = b"\xa5VTLRESV1\0\0DRIVE1          \
    \xa5\0\0\0\x0d\x01\0\0\x01\x01\0\0\0\0\0\0\0\xa1\
    \xa5\0\0\0\x0d\x01\x05\x01\x01\x01\0\0\0\0\0\0\0\xa1\
    \0\0\0\0\x0d\0\x05\x01\x01\x01\0\0\0\0\0\0\0\xa1\0\xa5\xa5";

/// The same after host 1 has registered a1 over a1 without APTPL.
pub const SIDE_WITHOUT_APTPL: &'static [u8] = b"\xa5VTLRESV1\0\0DRIVE1          \
    \xa5\0\0\0\x0d\x01\0\0\x01\x01\0\0\0\0\0\0\0\xa1\
    \xa5\0\0\0\x0d\x01\x05\x01\x01\x01\0\0\0\0\0\0\0\xa1\
    \xa5\0\0\0\x0d\0\x05\x01\x01\x01\0\0\0\0\0\0\0\xa1\
    \0";

/// What is seen in a store: its frames; and of the state that it leaves APTPL, the type of the reservation
/// and its holder, 0 for none, and how many are registered.
pub type Seen = (usize, [u8; 4]);

/// What is seen on a disk, or why it holds no store.
pub type Found = Result<Seen, StoreError>;

pub const NO_STORE: Found = Err(StoreError::NotOurs);

pub const NEW: Found = Ok((0, [0, 0, 0, 0]));

pub const REGISTERED: Found = Ok((1, [1, 0, 0, 1]));

pub const RESERVED: Found = Ok((2, [1, 5, 1, 1]));

pub const WITHOUT_APTPL: Found = Ok((3, [0, 0, 0, 0]));

/// The first fault of a disk.
pub const FAULT: StoreError = StoreError::Device(DevFault { failures: 1 });

// What is seen in a state.
fn seen_of(state: &PrState) -> [u8; 4] {
    let mut registered = 0u8;
    for key in &state.keys {
        registered = registered.saturating_add(u8::from(key.is_some()));
    }
    let Some(held) = &state.reservation else {
        return [u8::from(state.aptpl), 0, 0, registered];
    };
    let holder = match held.holder {
        Some(nexus) => nexus.number(),
        None => 0,
    };
    [
        u8::from(state.aptpl),
        held.kind.number(),
        holder,
        registered,
    ]
}

/// What is found on a disk.
pub fn found(alloc: Global, disk: MemDisk) -> Found {
    match AptplStore::open(alloc, disk) {
        Ok((store, left)) => Ok((store.frames(), seen_of(left.state()))),
        Err(refused) => Err(refused.error),
    }
}
