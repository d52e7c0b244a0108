//! Which drives are configured.
ghost use Rattle.std.specs.Prelude.{◌≡◌};
ghost use Rattle.script_reasons.specs.Drives.{has, AreNone, AreAll, AreWith};

use scsi_sense::Reply;
use std::alloc::Global;
use vtl_base::{DriveNo, NoMemory};
use vtl_script::{Item, Runner};

/// The set of the drives that are configured. It is a `Runner`, so that lines can be parsed as they are for a library
/// with these drives. It carries out no command: its `run` returns no replies.
#[derive(Clone, Copy, Debug)]
pub struct Drives {
    // by place, from 0 on
    are: [bool; 16],
}

impl Drives {
    /// A set without any drive.
    pub fn none() -> Self
        ensures { AreNone result }
    {
        Drives { are: [false; 16] }
    }

    /// The set of all 16 drives that a library may have.
    pub fn all() -> Self
        ensures { AreAll result }
    {
        Drives { are: [true; 16] }
    }

    /// Returns these drives together with `drive`.
    pub fn with(self, drive: DriveNo) -> Self
        ensures { AreWith drive self result }
    {
        let mut are = self.are;
        are[drive.place()] = true;
        Drives { are }
    }
}

impl Runner for Drives {
    ghost use Rattle.script_reasons.specs.Drives.{has};

    ghost is_configured = { λ drives number. has drives number };

    ghost answers = { λ old items replies new. Unit {0} };

    ghost is_ready = { λ drives. Unit {0} };

    ghost answers_none = { λ runner. tt };

    ghost answers_empty = { λ runner. tt };

    ghost answers_on = { λ old mid new first rest replies others one other. tt };

    fn configured(&self, drive: DriveNo) -> bool {
        self.are[drive.place()]
    }

    fn run(&mut self, alloc: Global, _: &mut Item) -> Result<Vec<Reply>, NoMemory> {
        Ok(Vec::new(alloc))
    }
}
