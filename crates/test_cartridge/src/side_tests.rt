//! The vector of 71 bytes, read and written; every cut of it, and each of its gates set to every value.
use crate::journals::FAULT as SIDE_FAULT;
use crate::samples::{
    DAMAGED_35, DAMAGED_55, DAMAGED_70, FAULT, Found, NEW, NOT_OURS, ONE, SIDE, TWO, block,
    disk_of, extent_of, found, has, marks, opened, store_side,
};
use cartridge::{Cartridge, CartridgeError, Shelved};
use gate_journal::JournalError;
use std::alloc::Global;
use std::process::Abort;
use std::test::Fail;
use tape_disk::{Disk, MemDisk};
use test_assertions::assert_equal;
use test_known::Known;
use volume_core::Kind;
use vtl_base::ObjNo;

// For each object number of the vector the kind of the object, and what those before it take.
static OBJECTS: &'static [(ObjNo, Option<Kind>, u64)] = &[
    (0, Some(Kind::Block), 0),
    (1, Some(Kind::Mark), 21),
    (2, None, 37),
];

// What an open cartridge reports of itself and of its objects.
fn is_vector<D: Disk>(rt: &impl Abort, cartridge: &Cartridge<D>) {
    assert_equal!(rt; extent_of(cartridge), (2, 2, 37));
    assert_equal!(rt; *cartridge.barcode(), *b"T00001L6        ");
    let capacities = (cartridge.capacity(0), cartridge.capacity(1));
    assert_equal!(rt; (cartridge.parts(), capacities), (1, (4_096, 0)));
    assert_equal!(rt; (cartridge.room(), cartridge.has_failed()), (1_099_511_627_705, false));
    for &(at, kind, used) in OBJECTS {
        assert_equal!(rt; (cartridge.kind_at(0, at), cartridge.used(0, at)), (kind, used); at);
    }
}

// The first disk of a closed cartridge has the vector, both when borrowed and when returned.
fn is_shelved(rt: &impl Abort, shelved: Shelved<MemDisk>) {
    shelved.known();
    assert_equal!(rt; shelved.disk().bytes(), SIDE.as_slice());
    assert_equal!(rt; shelved.second().bytes(), b"".as_slice());
    let (first, second) = shelved.into_disks();
    let (first, second) = Shelved::of(first, second).into_disks();
    assert_equal!(rt; (first.bytes(), second.bytes()), (SIDE.as_slice(), b"".as_slice()));
}

#[test]
fn the_vector_is_read(rt: HostRuntime) -> Result<(), Fail> {
    let first = MemDisk::from_bytes(rt.alloc(), SIDE)?;
    let mut cartridge = opened(rt.alloc(), first, MemDisk::new(rt.alloc()))?;
    is_vector(&rt, &cartridge);
    assert_equal!(rt; has(rt.alloc(), &mut cartridge, 0, b"hello"), Ok(true));
    // Room for frames and objects is made, and nothing is changed.
    assert_equal!(rt; cartridge.reserve(0, 100, 4), Ok(()));
    assert_equal!(rt; cartridge.reserve(9, 0, 4), Ok(()));
    assert_equal!(rt; extent_of(&cartridge), (2, 2, 37));
    is_shelved(&rt, cartridge.shelve());
    Ok(())
}

// The side with no frames, and with a third frame after its two.
const BEGIN: &'static [u8; 36] = b"\xa5VTLCART1\0\x01T00001L6        \0\0\0\0\0\0\x10\0\0";

const WHOLE: &'static [u8; 97] = b"\xa5VTLCART1\0\x01T00001L6        \0\0\0\0\0\0\x10\0\
    \xa5\0\0\0\x0f\x01\0\0\0\0\0\0\0\0\x05hello\
    \xa5\0\0\0\x0a\x02\0\0\0\0\x01\0\0\0\x01\
    \xa5\0\0\0\x15\x02\0\0\0\0\0\0\0\0\x02\x01\0\0\0\0\x01\0\0\0\x01x\
    \0";

// The bytes of its disk, and the syncs that it took.
fn is_written(rt: &impl Abort, known: &Known<MemDisk>, bytes: &[u8], syncs: u64) {
    known.cartridge().known();
    let disk = known.cartridge().disk();
    assert_equal!(rt; (disk.bytes(), disk.syncs()), (bytes, syncs));
}

// Two marks in place of the block, and a block after the first.
fn rewrite(alloc: Global, known: &mut Known<MemDisk>) -> Result<(), CartridgeError> {
    let block = block(alloc, 0, 1, b"x")?;
    known.store(alloc, &[marks(0, 0, 2), block])
}

// Two syncs make a cartridge, two open it, and two store each frame.
fn writes(rt: &impl Abort, alloc: Global, known: &mut Known<MemDisk>) {
    is_written(rt, known, BEGIN, 4);
    assert_equal!(rt; store_side(alloc, known), Ok(()));
    is_written(rt, known, SIDE, 8);
    assert_equal!(rt; rewrite(alloc, known), Ok(()));
    is_written(rt, known, WHOLE, 10);
}

// It is made where a longer side was before.
#[test]
fn the_vector_is_written(rt: HostRuntime) -> Result<(), Fail> {
    let alloc = rt.alloc();
    let first = MemDisk::from_bytes(alloc, SIDE)?;
    let Ok(mut known) = Known::made(alloc, first, MemDisk::new(alloc), &[4_096]) else {
        return Err(Fail::from("not made"));
    };
    writes(&rt, alloc, &mut known);
    Ok(())
}

#[test]
fn every_cut(rt: HostRuntime) -> Result<(), Fail> {
    for len in 0..SIDE.len() {
        let expected = match len {
            0..=34 => NOT_OURS,
            35..=55 => DAMAGED_35,
            _ => DAMAGED_55,
        };
        let disk = disk_of(rt.alloc(), (SIDE, len, 0, 0xa5))?;
        assert_equal!(rt; found(rt.alloc(), disk)?, expected; len);
    }
    Ok(())
}

// The place of a gate, and what is found where it is closed and where it is open.
static GATES: &'static [(usize, Found, Found)] = &[
    (35, NEW, TWO),
    (55, ONE, TWO),
    (70, TWO, DAMAGED_70),
];

#[test]
fn every_gate(rt: HostRuntime) -> Result<(), Fail> {
    for value in 0..=255 {
        for &(gate, shut, open) in GATES {
            let expected = if value == 0xa5 { open } else { shut };
            let disk = disk_of(rt.alloc(), (SIDE, 71, gate, value))?;
            assert_equal!(rt; found(rt.alloc(), disk)?, expected; (value, gate));
        }
    }
    Ok(())
}

// The text of each refusal of a cartridge, and of a side.
static TEXTS: &'static [(CartridgeError, &'static str)] = &[
    (CartridgeError::NotOurs, "not a cartridge"),
    (CartridgeError::Damaged { at: 35 }, "damaged at 35"),
    (CartridgeError::BadRecord { at: 55 }, "bad record at 55"),
    (CartridgeError::SideFull, "side full"),
    (FAULT, "device fault"),
    (CartridgeError::Failed, "failed before"),
    (CartridgeError::NoMemory, "out of memory"),
];

static SIDE_TEXTS: &'static [(JournalError, &'static str)] = &[
    (JournalError::NotOurs, "not a side"),
    (JournalError::Damaged { at: 35 }, "damaged at 35"),
    (JournalError::SideFull, "side full"),
    (SIDE_FAULT, "device fault"),
    (JournalError::Failed, "failed before"),
    (JournalError::NoMemory, "out of memory"),
];

#[test]
fn the_texts_of_the_refusals(rt: HostRuntime) -> Result<(), Fail> {
    for &(error, text) in TEXTS {
        assert_equal!(rt; format!(in rt.alloc(); "{error}")?.as_str(), text);
    }
    for &(error, text) in SIDE_TEXTS {
        assert_equal!(rt; format!(in rt.alloc(); "{error}")?.as_str(), text);
    }
    Ok(())
}
