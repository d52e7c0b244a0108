//! A timed program: a cartridge stores, fetches and is opened, and as many bytes are copied.
#![tactic(auto)]

mod work;

use std::env;
use std::process::ExitCode;
use work::{Timed, copied, fetched, made, opened, stored, stored_together};

// The words for which a little work is done where none is given.
static WORDS: &'static [&'static str] = &["store", "copy", "fetch", "side", "open"];

// The nanoseconds of the work for a word, done `count` times, and its result.
fn timed(rt: &HostRuntime, word: &str, count: u32) -> Option<Timed> {
    match word {
        "store" => stored(rt, count),
        "frame" => stored_together(rt, count),
        "copy" => copied(rt, count),
        "fetch" => fetched(rt, count),
        "side" => made(rt, count),
        "open" => opened(rt, count),
        _ => None,
    }
}

// Does a little work for each of these words, and prints the results.
fn a_little_of_all(rt: &HostRuntime) -> ExitCode {
    for &word in WORDS {
        match timed(rt, word, 1) {
            Some((_, count)) => {
                let _ = println!(rt; "{word} {count}");
            }
            None => return ExitCode::from(2),
        }
    }
    ExitCode::from(0)
}

/// With `store N`, `frame N`, `copy N`, `fetch N`, `side N` or `open N` it prints the nanoseconds and the
/// result. Without words it does a little of all but `frame`, and prints only the results.
fn main(rt: HostRuntime) -> ExitCode {
    let Ok(words) = env::args(&rt) else {
        return ExitCode::from(1);
    };
    let mut words = words.skip(1);
    let (Some(word), Some(count)) = (words.next(), words.next()) else {
        return a_little_of_all(&rt);
    };
    let Ok(count) = count.parse::<u32>() else {
        return ExitCode::from(1);
    };
    match timed(&rt, word.as_str(), count) {
        Some((time, count)) => {
            let _ = println!(rt; "{time} {count}");
            ExitCode::from(0)
        }
        None => ExitCode::from(2),
    }
}
