//! Loading and unloading that meet a fault, and a medium that is moved out of the drive.
ghost use Rattle.std.specs.Prelude.{◌≡◌, false};

use crate::asked::{
    A_NEW, Answer, BY_A, CHANGED, END, FAILED, GOOD, HELLO, LOAD, NO_MEDIUM, NONE, READ_5,
    REGISTER, RESERVE_5, Row, TEST_UNIT_READY, UNLOAD, WRITE_5, WRITE_ERROR,
};
use crate::asking::{AT_ONCE, Plain, ask_all, asks, assert_answer, greet, with_side};
use std::process::Abort;
use std::test::Fail;
use test_assertions::assert_holds;
use test_media::{FaultPlan, StagedMedium};

// The answers of a drive after an unloading or a loading has met the fault.
static AFTER_THE_FAULT: &'static [Row<'static>] = &[
    (1, TEST_UNIT_READY, NONE, FAILED),
    (1, LOAD, NONE, FAILED),
    // What is pending is discarded.
    (1, UNLOAD, NONE, GOOD),
    (1, TEST_UNIT_READY, NONE, NO_MEDIUM),
    (1, LOAD, NONE, GOOD),
    (1, TEST_UNIT_READY, NONE, GOOD),
];

// The first storing fails, by this command.
fn fails_in(rt: &impl Abort, drive: &mut Plain, first: &[u8]) {
    greet(rt, drive, &[1]);
    asks(rt, drive, (1, WRITE_5, b"hello", GOOD), 0);
    asks(rt, drive, (1, first, NONE, WRITE_ERROR), 1);
    ask_all(rt, drive, AFTER_THE_FAULT);
}

// The command; whether the frame is in flight when the device fails, and whether it is found.
static FRAMES: &'static [(&'static [u8], bool, bool)] = &[
    (UNLOAD, false, false),
    (UNLOAD, true, false),
    (UNLOAD, true, true),
    (LOAD, false, false),
    (LOAD, true, false),
    (LOAD, true, true),
];

#[test]
fn an_unloading_meets_a_fault(rt: HostRuntime) -> Result<(), Fail> {
    for &(first, tears, keeps_torn) in FRAMES {
        let plan = FaultPlan {
            tears,
            keeps_torn,
            ..AT_ONCE
        };
        let mut drive = with_side(rt.alloc(), 1_000, plan)?;
        fails_in(&rt, &mut drive, first);
        // Whether the side is found with the frame in flight.
        let found = if tears && keeps_torn { HELLO } else { END };
        asks(&rt, &mut drive, (1, READ_5, NONE, found), 0);
    }
    Ok(())
}

// Nothing comes out of the drive, and the reply says why.
fn stays(rt: &impl Abort, drive: &mut Plain, wanted: Answer) {
    match drive.unload() {
        Ok(_medium) => assert_holds!(rt; false, "a cartridge came out"),
        Err(reply) => assert_answer(rt, &reply, wanted, 0),
    }
}

// The device fails, and the cartridge stays; then what is pending is discarded, and the cartridge comes out. It is put
// in again, and is not loaded.
fn goes_out_and_in(rt: &impl Abort, drive: &mut Plain) {
    greet(rt, drive, &[1, 2]);
    asks(rt, drive, (1, WRITE_5, b"hello", GOOD), 0);
    stays(rt, drive, WRITE_ERROR);
    assert_holds!(rt; drive.medium().is_some());
    match drive.unload() {
        Ok(medium) => is_put_in(rt, drive, medium),
        Err(_) => assert_holds!(rt; false, "nothing came out"),
    }
}

// No condition is established; then the cartridge is loaded, and a reservation made.
static PUT_IN: &'static [Row<'static>] = &[
    (2, TEST_UNIT_READY, NONE, NO_MEDIUM),
    (1, TEST_UNIT_READY, NONE, NO_MEDIUM),
    (1, LOAD, NONE, GOOD),
    (1, READ_5, NONE, END),
    (2, TEST_UNIT_READY, NONE, CHANGED),
    (1, REGISTER, A_NEW, GOOD),
    (1, RESERVE_5, BY_A, GOOD),
];

fn is_put_in(rt: &impl Abort, drive: &mut Plain, medium: StagedMedium)
    requires { medium.awake ≡ false }
{
    stays(rt, drive, NO_MEDIUM);
    if !drive.is_empty() {
        assert_holds!(rt; false, "not empty");
        return;
    }
    drive.insert(medium);
    assert_holds!(rt; !drive.is_empty() && !drive.held());
    ask_all(rt, drive, PUT_IN);
    assert_holds!(rt; drive.held());
}

#[test]
fn a_cartridge_goes_out_and_in(rt: HostRuntime) -> Result<(), Fail> {
    goes_out_and_in(&rt, &mut with_side(rt.alloc(), 1_000, AT_ONCE)?);
    Ok(())
}
