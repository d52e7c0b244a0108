//! Drives for the tests, and rows of commands to them.
use crate::asked::{Answer, NONE, POWERED_ON, Row, TEST_UNIT_READY};
use drive_commands::Drive;
use pr_core::{Keeper, NoKeeper, Reservations};
use scsi_sense::{Reply, Status};
use std::alloc::Global;
use std::process::Abort;
use test_assertions::{assert_equal, assert_holds};
use test_media::{FaultPlan, StagedMedium};
use vtl_base::{Nexus, NoMemory};

/// A drive that saves no reservations.
pub type Plain = Drive<StagedMedium, NoKeeper>;

pub const SOUND: FaultPlan = FaultPlan {
    store: None,
    fetch: None,
    tears: false,
    keeps_torn: false,
};

/// The first storing fails.
pub const AT_ONCE: FaultPlan = FaultPlan {
    store: Some(0),
    ..SOUND
};

// Sense data, byte for byte.
fn sense_bytes(response: u8, key: u8, information: u32, code: u8, qualifier: u8) -> [u8; 18] {
    let [a, b, c, d] = information.to_be_bytes();
    [
        response, 0, key, a, b, c, d, 0x0a, 0, 0, 0, 0, code, qualifier, 0, 0, 0, 0,
    ]
}

fn sense_of(reply: &Reply) -> Option<[u8; 18]> {
    Some(reply.sense?.bytes())
}

fn established(wanted: Answer) -> (Status, Option<[u8; 18]>, &[u8]) {
    match wanted {
        Answer::Good(bytes) => (Status::Good, None, bytes),
        Answer::Check(key, code, qualifier) => {
            (
                Status::Check,
                Some(sense_bytes(0x70, key, 0, code, qualifier)),
                NONE,
            )
        }
        Answer::Sense(response, key, information, code, qualifier) => {
            let sense = sense_bytes(response, key, information, code, qualifier);
            (Status::Check, Some(sense), NONE)
        }
        Answer::Conflict => (Status::Conflict, None, NONE),
    }
}

pub fn assert_answer(rt: &impl Abort, reply: &Reply, wanted: Answer, at: usize) {
    let (status, sense, bytes) = established(wanted);
    assert_equal!(rt; reply.status, status; at);
    assert_equal!(rt; sense_of(reply), sense; at);
    assert_equal!(rt; reply.bytes.as_slice(), bytes; at);
}

pub fn asks<K: Keeper>(rt: &impl Abort, drive: &mut Drive<StagedMedium, K>, row: Row, at: usize) {
    let (host, cdb, sent, wanted) = row;
    let nexus = Nexus::new(host).expect(rt, "a nexus");
    assert_answer(rt, &drive.execute(nexus, cdb, sent), wanted, at);
}

pub fn ask_all<K: Keeper>(rt: &impl Abort, drive: &mut Drive<StagedMedium, K>, rows: &[Row]) {
    for (at, row) in rows.iter().enumerate() {
        asks(rt, drive, *row, at);
    }
}

/// The power on condition is reported to these hosts.
pub fn greet<K: Keeper>(rt: &impl Abort, drive: &mut Drive<StagedMedium, K>, hosts: &[u8]) {
    for host in hosts {
        asks(rt, drive, (*host, TEST_UNIT_READY, NONE, POWERED_ON), 0);
    }
}

/// A drive that was switched on with this medium in it, if any.
pub fn switched_on(alloc: Global, medium: Option<StagedMedium>) -> Result<Plain, NoMemory> {
    Drive::power_on(alloc, NoKeeper, Reservations::empty(), medium).map_err(|_| NoMemory)
}

/// One with a cartridge of one partition, whose side has this room and whose device fails by this plan.
pub fn with_side(alloc: Global, room: u64, plan: FaultPlan) -> Result<Plain, NoMemory> {
    switched_on(alloc, Some(StagedMedium::new(alloc, &[4_096], room, plan)?))
}

/// The empty drive is loaded with this medium; the reply where it is refused.
pub fn load(rt: &impl Abort, drive: &mut Plain, medium: StagedMedium) -> Option<Reply> {
    if !drive.is_empty() {
        assert_holds!(rt; false, "not empty");
        return None;
    }
    match drive.load(medium) {
        Ok(()) => None,
        Err((_, reply)) => Some(reply),
    }
}
