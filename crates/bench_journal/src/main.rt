//! A timed program: frames are added to a side, as many bytes are copied, and a side is opened.
#![tactic(auto)]

mod work;

use std::alloc::Global;
use std::env;
use std::process::ExitCode;
use std::time::Instant;
use work::{appended, copied, opened, side_of, written};

// The words for which a little work is done where none is given.
static WORDS: &'static [&'static str] = &["append", "copy", "write", "side", "open"];

// The work of the word, done `count` times: how many bytes or frames are the result.
fn done(alloc: Global, word: &str, count: u32) -> Option<usize> {
    match word {
        "append" => appended(alloc, count),
        "copy" => copied(alloc, count),
        "write" => written(alloc, count),
        "side" => Some(side_of(alloc, count)?.bytes().len()),
        _ => None,
    }
}

// The microseconds of the work, and its result. The opening of a side is timed alone.
fn timed(rt: &HostRuntime, word: &str, count: u32) -> Option<(u128, usize)> {
    let alloc = rt.alloc();
    if word == "open" {
        let side = side_of(alloc, count)?;
        let start = Instant::now(rt).ok()?;
        let frames = opened(alloc, side)?;
        return Some((start.elapsed(rt).ok()?.as_micros(), frames));
    }
    let start = Instant::now(rt).ok()?;
    let count = done(alloc, word, count)?;
    Some((start.elapsed(rt).ok()?.as_micros(), count))
}

// Does a little work for each of these words, and prints the results.
fn a_little_of_all(rt: &HostRuntime) -> ExitCode {
    for &word in WORDS {
        match timed(rt, word, 3) {
            Some((_, count)) => {
                let _ = println!(rt; "{word} {count}");
            }
            None => return ExitCode::from(2),
        }
    }
    ExitCode::from(0)
}

/// With `append N`, `copy N`, `write N`, `side N` or `open N` it prints the microseconds and the result.
/// Without words it does a little of each and prints only the results.
fn main(rt: HostRuntime) -> ExitCode {
    let Ok(words) = env::args(&rt) else {
        return ExitCode::from(1);
    };
    let mut words = words.skip(1);
    let (Some(word), Some(count)) = (words.next(), words.next()) else {
        return a_little_of_all(&rt);
    };
    let Ok(count) = count.parse::<u32>() else {
        return ExitCode::from(1);
    };
    match timed(&rt, word.as_str(), count) {
        Some((time, count)) => {
            let _ = println!(rt; "{time} {count}");
            ExitCode::from(0)
        }
        None => ExitCode::from(2),
    }
}
