//! A file for tests, in memory: its calls move as many bytes as a test asks for, are interrupted or
//! fail.
ghost use Rattle.std.specs.Prelude.{◌≡◌, ◌≤◌, length, IfOk};
ghost use Rattle.tape_disk.specs.CallLog.{idled};
ghost use Rattle.tape_disk.specs.MemDisk.{mem_log};

use file_disk::{CallFailed, RawFile, Stop};
use std::collections::VecDeque;
use tape_disk::{Disk, MemDisk};

/// What a call of a staged file does.
#[derive(Clone, Copy, PartialEq, Eq, Debug)]
pub enum Turn {
    /// All that it is asked.
    Whole,
    /// At most this many bytes are moved. For a call that moves none this is `Whole`.
    Part(usize),
    /// A signal interrupts it. For a call that moves no bytes this is `Failed`.
    Interrupted,
    /// It does nothing, and fails.
    Failed,
}

/// A file for tests, over a disk in memory. Each call but `size` takes the next turn that was
/// staged, and behind the last one each is `Whole`.
#[derive(Drop)]
pub struct StagedFile {
    disk: MemDisk,
    turns: VecDeque<Turn>,
}

impl StagedFile {
    ghost use Rattle.test_files.specs.Staged.{staged_disk, staged_turns};

    /// A file that holds what the disk does.
    pub fn new(disk: MemDisk, turns: VecDeque<Turn>) -> StagedFile
        ensures disk { staged_disk result ≡ disk }
        ensures turns { staged_turns result ≡ turns.items }
    {
        StagedFile { disk, turns }
    }

    /// The disk below.
    pub fn disk(&self) -> &MemDisk
        ensures { result.now ≡ staged_disk self.now }
    {
        &self.disk
    }

    fn next_turn(&mut self) -> Turn
        ensures { self.new.disk ≡ self.old.disk }
    {
        self.turns.pop_front().unwrap_or(Turn::Whole)
    }

    // A call that does nothing: the disk is asked for no bytes, which moves its clock on.
    fn rest(&mut self)
        ensures { mem_log self.new.disk ≡ idled (mem_log self.old.disk) }
    {
        let _ = self.disk.read_at(0, &mut []);
    }
}

// How many of `count` bytes a turn lets a call move.
fn allowed(turn: Turn, count: usize) -> Result<usize, Stop>
    ensures { IfOk result (λ moved. moved ≤ count) }
{
    match turn {
        Turn::Whole => Ok(count),
        Turn::Part(most) => Ok(most.min(count)),
        Turn::Interrupted => Err(Stop::Interrupted),
        Turn::Failed => Err(Stop::Failed),
    }
}

impl RawFile for StagedFile {
    ghost use Rattle.tape_disk.specs.CallLog.{is_disk};
    ghost use Rattle.test_files.specs.Staged.{staged_file_state, staged_log, staged_passed_over, staged_unsynced, staged_within};

    ghost state = { staged_file_state };

    ghost passed_over = { staged_passed_over };

    ghost unsynced = { staged_unsynced };

    ghost is_file = { λ file honest. is_disk (staged_log file) 0 };

    ghost within = { λ file honest. staged_within file };

    fn size(&self) -> Option<u64> {
        Some(self.disk.len())
    }

    fn read_some(&mut self, at: u64, buffer: &mut [u8]) -> Result<usize, Stop> {
        let turn = self.next_turn();
        let behind = self.disk.len().saturating_sub(at) as usize;
        let stop = match allowed(turn, buffer.len().min(behind)) {
            Ok(count) => {
                let place = self.disk.len().min(at);
                return match self.disk.read_at(place, &mut buffer[..count]) {
                    Ok(()) => Ok(count),
                    Err(_) => Err(Stop::Failed),
                };
            }
            Err(stop) => stop,
        };
        self.rest();
        Err(stop)
    }

    fn write_some(&mut self, at: u64, bytes: &[u8]) -> Result<usize, Stop> {
        let turn = self.next_turn();
        match allowed(turn, bytes.len()) {
            Ok(count) => match self.disk.write_at(at, &bytes[..count]) {
                Ok(()) => Ok(count),
                Err(_) => Err(Stop::Failed),
            },
            Err(stop) => {
                self.rest();
                Err(stop)
            }
        }
    }

    // The bytes stand there: nothing changes.
    fn write_again(&mut self, _at: u64, bytes: &[u8]) -> Result<usize, Stop> {
        let turn = self.next_turn();
        self.rest();
        allowed(turn, bytes.len())
    }

    fn cut(&mut self, len: u64) -> Result<(), CallFailed> {
        let turn = self.next_turn();
        if allowed(turn, 0).is_err() {
            self.rest();
            return Err(CallFailed);
        }
        self.disk.cut(len).map_err(|_| CallFailed)
    }

    fn sync(&mut self) -> Result<(), CallFailed> {
        let turn = self.next_turn();
        if allowed(turn, 0).is_err() {
            self.rest();
            return Err(CallFailed);
        }
        self.disk.sync().map_err(|_| CallFailed)
    }
}
