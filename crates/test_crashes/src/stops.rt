//! A run over a disk that is stopped at each of its calls, with what a crash may leave.
ghost use Rattle.std.specs.Prelude.{◌+◌, ◌≤◌, IfOk, vec_len};

use std::alloc::Global;
use tape_disk::{FuseDisk, MemDisk};
use vtl_base::NoMemory;

/// A run of calls on a disk.
pub trait Run {
    /// Runs, and returns the disk that was reached and whether all calls succeeded. A later call of it does
    /// the same.
    fn run(&self, alloc: Global, disk: FuseDisk<MemDisk>) -> (MemDisk, bool);
}

/// What one crash left.
#[derive(Drop)]
pub struct Stop {
    /// How many calls of the disk passed before the stop.
    pub calls: u64,
    /// Whether the run came to its end.
    pub ended: bool,
    /// The disk as it is found after the crash.
    pub disk: MemDisk,
}

/// Stops the run before its first call of the disk, before its second, and so on until it comes to its end.
/// At each stop none, one or all of the bytes that are not sure have landed, and the others are 00h, A5h or
/// FFh.
pub fn stop_at_each_call<R: Run>(
    alloc: Global,
    disk: &MemDisk,
    run: &R,
) -> Result<Vec<Stop>, NoMemory>
    ensures { IfOk result (λ stops. 9 ≤ vec_len stops) }
{
    let mut stops = Vec::new(alloc);
    let mut ended = add_stops(alloc, &mut stops, disk, run, 0)?;
    for calls in 1..u64::MAX {
        if ended {
            break;
        }
        ended = add_stops(alloc, &mut stops, disk, run, calls)?;
    }
    Ok(stops)
}

// Adds nine crashes after that many calls. Returns whether the run came to its end.
fn add_stops<R: Run>(
    alloc: Global,
    stops: &mut Vec<Stop>,
    disk: &MemDisk,
    run: &R,
    calls: u64,
) -> Result<bool, NoMemory>
    ensures { IfOk result (λ _. vec_len stops.old + 9 ≤ vec_len stops.new) }
{
    let (reached, ended) = run.run(alloc, FuseDisk::new(disk.copy()?, calls));
    stops.reserve(9)?;
    for (keep, fill) in [
        (0, 0x00),
        (0, 0xa5),
        (0, 0xff),
        (1, 0x00),
        (1, 0xa5),
        (1, 0xff),
        (u64::MAX, 0x00),
        (u64::MAX, 0xa5),
        (u64::MAX, 0xff),
    ] {
        let disk = reached.copy()?.crash(keep, fill)?;
        let Ok(()) = stops.push(Stop { calls, ended, disk }) else {
            return Err(NoMemory);
        };
    }
    Ok(ended)
}
