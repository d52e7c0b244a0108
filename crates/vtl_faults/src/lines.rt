//! Formats the line of a fault in place, without allocating.
ghost use Rattle.std.specs.Prelude.{◌≡◌, IfOk};
ghost use Rattle.vtl_faults.specs.Faults.{whole_line};

use crate::endings::FaultLine;
use arrayvec::ArrayString;
use std::fmt::{self, Write};

/// Returns the line of a fault, with its line feed. Each line fits into 64 bytes: the longest, which reports a refused
/// line of a script, has 46.
pub fn whole_line(line: FaultLine) -> Result<ArrayString<64>, fmt::Error>
    ensures { IfOk result (λ text. text.bytes ≡ whole_line line.fault) }
{
    let mut text = ArrayString::new();
    writeln!(text, "{line}")?;
    Ok(text)
}
