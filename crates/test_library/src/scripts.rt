//! Scripts over a library: the hosts of a phase run side by side, and flushers beside them, from the first phase to the
//! last; and where a script ends.
use crate::days::{are_all_there, are_in_their_places, has_ended};
use crate::samples::{First, NEVER, Sample, TestDisk, make_sample};
use crate::stages::{ARMED, FREED, HELD, LATE, Stage, StageGate, Stands};
use library::{Finished, Gate, RingRow, Unopened};
use library_scripts::{Ran, run_library};
use std::alloc::Global;
use std::marker::Brand;
use std::process::Abort;
use std::sync::ledger::Blank;
use std::sync::{Arc, Wait};
use std::test::Fail;
use std::thread::Threads;
use std::time::Clock;
use tape_disk::Disk;
use test_assertions::assert_equal;
use test_gates::{count_fresh, hosts};

// The answers to a command of a host: its drive was switched on, or a cartridge is new in it.
const POWERED_ON: &str = "CHECK 700006000000000a00000000290000000000\n";

const CHANGED: &str = "CHECK 700006000000000a00000000280000000000\n";

const GOOD: &str = "GOOD\n";

// Runs a script over a library of a sample and of 64 hosts.
fn runs<D: Disk + Drop + Send, R: Threads + Wait + Abort + Sync, G: Gate + Sync>(
    rt: &R,
    alloc: Global,
    sample: Sample<D>,
    gate: &G,
    script: &str,
) -> Result<(Vec<u8>, Ran<D>), Fail> {
    let Sample { bays, slots } = sample;
    let drives = count_fresh(bays.as_slice())?;
    let rings = RingRow::of_drives(alloc, bays.as_slice())?;
    let hosts = hosts(alloc, 64)?;
    let parts = Unopened {
        bays,
        rings,
        slots,
        hosts: hosts.as_slice(),
        bay_ledger: Blank::new(drives),
        host_ledger: Blank::new(64),
    };
    let mut reader = script.as_bytes();
    let mut text = Vec::new(alloc);
    let ran = run_library::<D, Brand, Brand, R, G, &'_ [u8], Vec<u8>>(
        rt,
        alloc,
        parts,
        gate,
        &mut reader,
        &mut text,
    );
    match ran {
        Ok(ran) => Ok((text, ran)),
        Err(_) => Err(Fail::from("no library")),
    }
}

// What a script writes: the expected answers. So many of its syncs lasted, and none was late.
fn writes<R: Threads + Wait + Abort + Clock + Sync>(
    rt: &R,
    alloc: Global,
    stage: &Arc<Stage, Global>,
    sample: Sample<TestDisk>,
    stands: Stands,
    script: &str,
    wanted: &str,
) -> Result<Finished<TestDisk>, Fail> {
    let gate = StageGate {
        rt,
        stage,
        number: 1,
        stands,
    };
    let (text, ran) = runs(rt, alloc, sample, &gate, script)?;
    assert_equal!(rt; ran.outcome, Ok(()); script);
    assert_equal!(rt; (stage.value(HELD), stage.value(LATE)), (stage.value(ARMED), 0); script);
    assert_equal!(rt; text.as_slice(), wanted.as_bytes(); script);
    Ok(ran.finished)
}

// Adds a command of each of 16 hosts to the drive of its number, or of each of 64 hosts to drive 1 and another.
fn add_all(alloc: Global, script: &mut String, hosts: u32, command: &str) -> Result<(), Fail> {
    for place in 0..hosts {
        let (host, other) = (place + 1, place % 15 + 2);
        let lines = if hosts == 16 {
            format!(in alloc; "{host} {host} {command}\n")?
        } else {
            format!(in alloc; "{host} 1 {command}\n{host} {other} {command}\n")?
        };
        script.push_str(lines.as_str())?;
    }
    Ok(())
}

// Each host sends TEST UNIT READY to its drives, each of so many lines; then, in one phase, each writes a filemark to
// each. As many syncs are to last.
fn meet<R: Threads + Wait + Abort + Clock + Sync>(
    rt: &R,
    alloc: Global,
    hosts: u32,
    lines: u32,
    first: First,
) -> Result<(), Fail> {
    let stage = Arc::new(alloc, Stage::new(u64::from(lines), hosts == 16))?;
    let sample = make_sample(rt, alloc, &stage, 16, first)?;
    let mut script = String::new(alloc);
    add_all(alloc, &mut script, hosts, "000000000000")?;
    script.push_str("--\n")?;
    add_all(alloc, &mut script, hosts, "100000000100")?;
    let mut wanted = String::new(alloc);
    for answer in [POWERED_ON, GOOD] {
        for _ in 0..lines {
            wanted.push_str(answer)?;
        }
    }
    stage.add(ARMED, u64::from(lines));
    let finished = writes(
        rt,
        alloc,
        &stage,
        sample,
        Stands::Nowhere,
        script.as_str(),
        wanted.as_str(),
    )?;
    assert_equal!(rt; stage.value(FREED), u64::from(lines));
    assert_equal!(rt; (finished.answered, finished.moved), (u64::from(lines) * 2, 0));
    are_in_their_places(rt, &finished);
    Ok(())
}

// The first sync of each filemark lasts until those of all sixteen have begun, so each host must be in its command
// while all others are.
#[test]
fn sixteen_hosts_of_a_phase_meet(rt: HostRuntime) -> Result<(), Fail> {
    meet(&rt, rt.alloc(), 16, 16, First::Lasts)
}

// A filemark takes two syncs. Those at the other drives last until there were 128 at drive 1, so no host ends before
// each of the 64 has begun.
#[test]
fn all_hosts_of_a_phase_meet(rt: HostRuntime) -> Result<(), Fail> {
    meet(&rt, rt.alloc(), 64, 128, First::Frees)
}

// After a phase of two hosts and a move of nothing, host 1 writes a block to drive 1, and then host 2 a filemark to
// drive 2. The sync of the filemark lasts until a flusher has synced the cartridge of drive 1.
const STORED_BETWEEN: &str = "1 1 000000000000\n2 2 000000000000\n--\nmove 1001 1002\n\
    1 1 0a0000000100 78\n--\n2 2 100000000100\n";

const ANSWERS: &str = "CHECK 700006000000000a00000000290000000000\n\
    CHECK 700006000000000a00000000290000000000\n\
    CHECK 700005000000000a000000003b0e00000000\nGOOD\nGOOD\n";

#[test]
fn a_flusher_stores_between_two_phases(rt: HostRuntime) -> Result<(), Fail> {
    let stage = Arc::new(rt.alloc(), Stage::new(1, false))?;
    let sample = make_sample(&rt, rt.alloc(), &stage, 2, First::Frees)?;
    stage.add(ARMED, 1);
    writes(
        &rt,
        rt.alloc(),
        &stage,
        sample,
        Stands::Nowhere,
        STORED_BETWEEN,
        ANSWERS,
    )?;
    Ok(())
}

// Lines of two hosts, and moves that exchange their cartridges; the answer to each, and what drives 1 and 2 then count.
static LINES: &'static [(&'static str, &'static str, u64, u64)] = &[
    ("1 1 000000000000\n", POWERED_ON, 0, 0),
    ("2 2 000000000000\n--\n", POWERED_ON, 0, 0),
    ("1 1 0a0000000100 78\n", GOOD, 1, 0),
    ("1 1 100000000100\n", GOOD, 2, 0),
    ("2 2 0a0000000100 79\n", GOOD, 2, 1),
    ("move 1 1001\n", GOOD, 2, 1),
    ("move 2 1\n", GOOD, 2, 1),
    ("move 1001 2\n", GOOD, 2, 1),
    ("1 1 000000000000\n", CHANGED, 2, 1),
    ("2 2 000000000000\n--\n", CHANGED, 2, 1),
    ("1 1 080000000100\n", "GOOD 79\n", 2, 1),
    ("1 1 0a0000000100 7a\n", GOOD, 3, 1),
    ("2 2 080000000100\n", "GOOD 78\n", 3, 1),
    ("2 2 100000000100\n", GOOD, 3, 2),
    ("move 2 1002\n", GOOD, 3, 2),
    ("move 1 2\n", GOOD, 3, 2),
];

// The script of the first lines has their answers, and the library ends with these counts and both cartridges.
#[test]
fn a_script_ends_behind_any_line(rt: HostRuntime) -> Result<(), Fail> {
    let mut script = String::new(rt.alloc());
    let mut wanted = String::new(rt.alloc());
    for &(line, answer, one, two) in LINES {
        script.push_str(line)?;
        wanted.push_str(answer)?;
        let stage = Arc::new(rt.alloc(), Stage::new(0, false))?;
        let sample = make_sample(&rt, rt.alloc(), &stage, 2, First::Fails(NEVER))?;
        let (text, answers) = (script.as_str(), wanted.as_str());
        let ran = writes(
            &rt,
            rt.alloc(),
            &stage,
            sample,
            Stands::Nowhere,
            text,
            answers,
        )?;
        has_ended(&rt, &ran, Ok((one, two)));
        are_all_there(&rt, &ran, 2);
    }
    Ok(())
}
