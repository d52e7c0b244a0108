//! A timed program: the sum of bytes.
#![tactic(auto)]

use crc32c::sum_of;
use std::alloc::{AllocError, Global};
use std::env;
use std::process::ExitCode;
use std::time::Instant;

// So many bytes that look random: the high byte of each number of a linear congruential sequence.
fn filled(alloc: Global, count: u32) -> Result<Vec<u8>, AllocError> {
    let mut bytes = Vec::with_capacity(alloc, count as usize)?;
    let mut state = 1u32;
    for _ in 0..count {
        state = state.wrapping_mul(1_664_525).wrapping_add(1_013_904_223);
        bytes.push((state >> 24) as u8)?;
    }
    Ok(bytes)
}

// The microseconds of the sum of so many bytes, and the sum.
fn timed(rt: &HostRuntime, count: u32) -> Option<(u128, u32)> {
    let bytes = filled(rt.alloc(), count).ok()?;
    let start = Instant::now(rt).ok()?;
    let sum = sum_of(&bytes);
    Some((start.elapsed(rt).ok()?.as_micros(), sum))
}

// Prints the sum of so many bytes, behind its microseconds where these are wanted.
fn told(rt: &HostRuntime, count: u32, is_timed: bool) -> ExitCode {
    let Some((time, sum)) = timed(rt, count) else {
        return ExitCode::from(2);
    };
    if is_timed {
        let _ = println!(rt; "{time} {sum}");
    } else {
        let _ = println!(rt; "sum {sum}");
    }
    ExitCode::from(0)
}

/// With `sum N` it prints the microseconds in which N bytes are summed, and their sum. Without words it prints the sum
/// of 100,000 bytes alone.
fn main(rt: HostRuntime) -> ExitCode {
    let Ok(words) = env::args(&rt) else {
        return ExitCode::from(1);
    };
    let mut words = words.skip(1);
    let (Some(_), Some(count)) = (words.next(), words.next()) else {
        return told(&rt, 100_000, false);
    };
    match count.parse::<u32>() {
        Ok(count) => told(&rt, count, true),
        Err(_) => ExitCode::from(1),
    }
}
