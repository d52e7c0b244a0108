//! The program over files and streams of a test's own.
mod calls;
mod checks;
mod creations;
mod failing;
mod in_parts;
mod looked_disks;
mod lost_lines;
mod noted;
mod noted_disks;
mod noted_files;
mod reclaims;
mod runs;
mod streams;
mod watched;

use bay_moves::run_held;
use std::test::Fail;
use test_assertions::assert_equal;
use vtl_power_on::starting::built_in;

const ATTENTION: &str = "CHECK 700006000000000a00000000290000000000\n";

const TURNS: &[u8] = b"3 1 a50000000000\n1 1 000000000000\n3 1 000000000000\n2 1 000000000000 00\n\
    1 1 000000000000\n--\n2 1 000000000000\n1 1 000000000000\n";

const ANSWERS: &str = "CHECK 700006000000000a00000000290000000000\nGOOD\n\
    CHECK 700006000000000a00000000290000000000\n\
    CHECK 700005000000000a00000000200000000000\n\
    CHECK 700006000000000a00000000290000000000\nGOOD\nGOOD\n";

// One thread runs a script of several hosts over a library.
#[test]
fn hosts_take_turns(rt: HostRuntime) -> Result<(), Fail> {
    let mut held = built_in(rt.alloc())?;
    let mut reader = TURNS;
    let mut written = Vec::new(rt.alloc());
    let end = run_held(rt.alloc(), &mut held, &mut reader, &mut written);
    assert_equal!(rt; end, Ok(()));
    assert_equal!(rt; written.as_slice(), ANSWERS.as_bytes());
    Ok(())
}
