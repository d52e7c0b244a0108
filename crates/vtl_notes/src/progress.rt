//! Reports how much a reclaim has written, or how much a check has read: a line on standard error for each GiB, if
//! standard error is a terminal.
ghost use Rattle.std.specs.Prelude.{◌≡◌, IfOk};
ghost use Rattle.vtl_notes.specs.Progress.{full_gib, gib_line, gib_read_line};

use crate::watched::Progress;
use arrayvec::ArrayString;
use std::fmt::{self, Write as _};
use std::io::{IsTerminal, Write};
use std::sync::atomic::{AtomicU64, Ordering};
use vtl_faults::faults::VtlFault;

// The bytes of a GiB.
const GIB: u64 = 1_073_741_824;

/// Returns how many GiB (1,073,741,824 bytes each) are full once `after` bytes are written, if fewer were full at
/// `before` bytes; else None.
pub fn full_gib(before: u64, after: u64) -> Option<u64>
    ensures { result ≡ full_gib before after }
{
    let full = after / GIB;
    if before / GIB < full {
        Some(full)
    } else {
        None
    }
}

/// Returns the line that reports `full` GiB as written, with its line feed. Each line fits into the 64 bytes of the
/// result: the longest line has 33 bytes.
pub fn gib_line(full: u64) -> Result<ArrayString<64>, fmt::Error>
    ensures { IfOk result (λ text. text.bytes ≡ gib_line full) }
{
    let mut text = ArrayString::new();
    writeln!(text, "{full} GiB written")?;
    Ok(text)
}

/// Returns the line that reports `full` of `all` GiB as read, with its line feed. Each line fits into the 64 bytes of
/// the result: the longest line has 54 bytes.
pub fn gib_read_line(full: u64, all: u64) -> Result<ArrayString<64>, fmt::Error>
    ensures { IfOk result (λ text. text.bytes ≡ gib_read_line full all) }
{
    let mut text = ArrayString::new();
    writeln!(text, "{full} of {all} GiB read")?;
    Ok(text)
}

/// Whether `words`, those of a command line, ask for a reclaim: whether the second word is `reclaim`. The first word is
/// the program's name.
pub fn ask_to_reclaim(words: &[String]) -> bool {
    match words.get(1) {
        Some(word) => word.as_str() == "reclaim",
        None => false,
    }
}

/// The lines on standard error that report how much a reclaim has written, or how much of a cartridge a check has read.
/// An error while a line is written is ignored.
#[derive(Drop)]
pub struct GibLines<'a> {
    rt: &'a HostRuntime,
    is_terminal: bool,
    is_reclaim: bool,
    bytes: AtomicU64,
}

impl<'a> GibLines<'a> {
    /// Creates the lines. They are written only if standard error is a terminal; those of writes only if `words`, those
    /// of the command line, ask for a reclaim.
    pub fn new(rt: &'a HostRuntime, words: &Result<Vec<String>, VtlFault>) -> GibLines<'a> {
        let is_reclaim = match words {
            Ok(words) => ask_to_reclaim(words.as_slice()),
            Err(_) => false,
        };
        GibLines {
            rt,
            is_terminal: rt.stderr().is_terminal(),
            is_reclaim,
            bytes: AtomicU64::new(0),
        }
    }

    /// Reports that the objects of a cartridge which were read so far use `used` bytes, and all of its objects `all`
    /// bytes. The first report on a cartridge is of less than a GiB.
    pub fn read(&self, used: u64, all: u64) {
        let before = self.bytes.swap(used, Ordering::SeqCst);
        if !self.is_terminal {
            return;
        }
        if let Some(full) = full_gib(before, used) {
            if let Ok(line) = gib_read_line(full, all / GIB) {
                let _ = self.rt.stderr().write_all(line.as_str().as_bytes());
            }
        }
    }
}

impl<'a> Progress for GibLines<'a> {
    fn written(&self, bytes: u64) {
        if !self.is_terminal || !self.is_reclaim {
            return;
        }
        let before = self.bytes.fetch_add(bytes, Ordering::SeqCst);
        if let Some(full) = full_gib(before, before.saturating_add(bytes)) {
            if let Ok(line) = gib_line(full) {
                let _ = self.rt.stderr().write_all(line.as_str().as_bytes());
            }
        }
    }
}
