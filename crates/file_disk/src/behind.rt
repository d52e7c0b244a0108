//! Looks for frames behind the end of the side in an open file, beside the disk over it.
ghost use Rattle.std.specs.Prelude.{◌≤◌, length, IfOk};

use crate::looked::Looked;
use crate::raw::{CallFailed, RawFile, Stop};
use crate::system::SystemFile;
use gate_journal::frames_behind;

// An open file of the system, which is only read. It records none of these calls.
#[derive(Clone, Copy)]
struct Glance<'a> {
    file: &'a SystemFile,
}

impl<'a> RawFile for Glance<'a> {
    ghost use Rattle.std.specs.Prelude.{[]};

    // No proof knows a file of the system.
    ghost state = { λ glance. record {
      honest = ⊥;
      seen = [];
      may_leave = λ image. ⊥;
      moment = 0;
      left_since = λ t image. ⊥;
      failures = 0;
    } };

    ghost passed_over = { λ glance place. ⊥ };

    ghost unsynced = { λ glance place. ⊥ };

    ghost is_file = { λ glance honest. absurd honest };

    ghost within = { λ glance honest. absurd honest };

    fn size(&self) -> Option<u64> {
        self.file.size()
    }

    fn read_some(&mut self, at: u64, buffer: &mut [u8]) -> Result<usize, Stop> {
        self.file.read_unrecorded(at, buffer)
    }

    fn write_some(&mut self, _at: u64, _bytes: &[u8]) -> Result<usize, Stop> {
        Err(Stop::Failed)
    }

    fn write_again(&mut self, _at: u64, _bytes: &[u8]) -> Result<usize, Stop> {
        Err(Stop::Failed)
    }

    fn cut(&mut self, _len: u64) -> Result<(), CallFailed> {
        Err(CallFailed)
    }

    fn sync(&mut self) -> Result<(), CallFailed> {
        Err(CallFailed)
    }
}

impl SystemFile {
    /// The place of the end gate of the side in this file, if frames stand behind it, as `gate_journal::frames_behind`
    /// finds them. None where they do not, and where a read failed. The file is only read, beside the disk over it: no
    /// call is recorded, and no failure is counted.
    pub fn frames_behind(&self) -> Option<u64> {
        let mut looked = Looked::new(Glance { file: self });
        let found = match frames_behind(&mut looked) {
            Ok(found) => found,
            Err(_) => None,
        };
        drop(looked);
        found
    }
}
