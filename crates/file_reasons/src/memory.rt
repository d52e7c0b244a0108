//! What memory was needed for when it ran out.
ghost use Rattle.std.specs.Prelude.{◌≡◌, ◌++◌, OnOk};
ghost use Rattle.file_reasons.specs.Memory.{memory_lines};

use crate::sizes::Size;
use explanations::Explanation;
use std::alloc::{AllocError, Global};
use std::fmt;

/// What the program was doing when memory ran out.
#[derive(Debug, Drop)]
pub enum MemoryReason {
    /// The program opened or read the file of this name, or worked with bytes that it had read from this file.
    File(String),
    /// The program read the script or carried it out, and had read this many bytes of the script.
    Script(u64),
}

impl fmt::Display for MemoryReason {
    ghost use Rattle.std.specs.Prelude.{Some};
    ghost use Rattle.file_reasons.specs.Memory.{memory_text};

    ghost output = { λ reason. Some (memory_text reason) };

    fn fmt<W: fmt::Write>(&self, f: &mut fmt::Formatter<W>) -> fmt::Result {
        match self {
            MemoryReason::File(name) => write!(f, "as it was opened or read, the file {name}"),
            MemoryReason::Script(bytes) => {
                let bytes = Size(*bytes);
                write!(f, "as the script was read, behind {bytes} of it")
            }
        }
    }
}

impl MemoryReason {
    /// Adds two lines to `lines`: what memory was needed for, and what to do. If memory runs out, an error is returned,
    /// and only the first line, or none, may have been added.
    pub fn add_to(&self, alloc: Global, lines: &mut Explanation) -> Result<(), AllocError>
        ensures { OnOk result (lines.new ≡ lines.old ++ memory_lines self.now) }
    {
        let reason = self;
        let wanted = format!(in alloc; "memory ran out: {reason}")?;
        lines.add(alloc, wanted.as_str())?;
        lines.add(
            alloc,
            "to do: give the program more memory; a loaded cartridge takes 24 bytes for each block",
        )
    }
}
