//! A timed program: a drive writes to a cartridge in memory, and as many bytes are copied.
#![tactic(auto)]

mod files;
mod work;

use files::appended;
use std::env;
use std::process::ExitCode;
use work::{Timed, blocks, bytes, copied, marks};

// The nanoseconds of the work for a word, done `count` times, and its result.
fn timed(rt: &HostRuntime, word: &str, count: u32) -> Option<Timed> {
    match word {
        "blocks" => blocks(rt, count),
        "bytes" => bytes(rt, count),
        "marks" => marks(rt, count),
        "copy" => copied(rt, count),
        _ => None,
    }
}

/// With `blocks N`, `bytes N`, `marks N`, `copy N` or `file N PATH` it prints the nanoseconds and the result.
/// Without words it does a little of each but the last, and prints only the results.
fn main(rt: HostRuntime) -> ExitCode {
    let Ok(words) = env::args(&rt) else {
        return ExitCode::from(1);
    };
    let mut words = words.skip(1);
    let (Some(word), Some(count)) = (words.next(), words.next()) else {
        for (word, count) in [("blocks", 2), ("bytes", 3), ("marks", 2), ("copy", 1)] {
            match timed(&rt, word, count) {
                Some((_, count)) => {
                    let _ = println!(rt; "{word} {count}");
                }
                None => return ExitCode::from(2),
            }
        }
        return ExitCode::from(0);
    };
    let Ok(count) = count.parse::<u32>() else {
        return ExitCode::from(1);
    };
    let done = match words.next() {
        Some(path) if word.as_str() == "file" => appended(&rt, path.as_str(), count),
        _ => timed(&rt, word.as_str(), count),
    };
    match done {
        Some((time, count)) => {
            let _ = println!(rt; "{time} {count}");
            ExitCode::from(0)
        }
        None => ExitCode::from(2),
    }
}
