//! Reports what two files hold.
ghost use Rattle.std.specs.Prelude.{◌≡◌, ◌==◌, ◌||◌, List, ℕ, IfOk, IfErr, MatchOption, codes};
ghost use Rattle.std.specs.List.{starts_with};
ghost use Rattle.vtl_files.specs.Checks.{ChecksOrder, GivesLines, IsSecondRead, IsSecondUnread, PrintsLines, verdict_of};

use crate::files::ReadFiles;
use crate::writing::print_text;
use check_lines::checking::{Checked, check_side};
use check_lines::reading::ReportsRead;
use file_disk::FileError;
use std::alloc::Global;
use std::io::Write;
use tape_disk::Disk;
use vtl_base::Bytes;
use vtl_config::second_file;
use vtl_faults::faults::{Verdict, VtlFault};

// `Done` where the lines of a side say what it holds, `Refused` where they say why it gives nothing.
pub(crate) fn verdict_of(lines: &[u8]) -> Verdict
    ensures { result ≡ verdict_of lines.now }
{
    if lines.starts_with(b"cartridge ") || lines.starts_with(b"reservations ") {
        Verdict::Done
    } else {
        Verdict::Refused
    }
}

/// Writes the lines that `check_side` returned. Returns `Done` where they describe a cartridge or a store of
/// reservations, `Refused` where they say why there is neither. The error is `Device` where the writer fails. Where
/// `lines` is a fault, nothing is written, and that fault is returned.
pub fn print_lines<W: Write>(
    lines: Result<Bytes, VtlFault>,
    writer: &mut W,
) -> Result<Verdict, VtlFault>
    ensures { PrintsLines lines (W.contents writer.old) (W.contents writer.new) result }
{
    let lines = match lines {
        Ok(lines) => lines,
        Err(fault) => return Err(fault),
    };
    match print_text(writer, lines.as_slice()) {
        Ok(()) => Ok(verdict_of(lines.as_slice())),
        Err(fault) => Err(fault),
    }
}

// Opens the second file of this name to read it, and returns its disk. That has no bytes where the file is missing.
// None where the file is there and is not opened.
fn second_to_read<D: Disk, F: ReadFiles<D>>(files: &F, name: &str) -> Option<D>
    ensures { MatchOption result (IsSecondUnread D.state F.opens_to_read name.now)
        (IsSecondRead D.state F.opens_to_read name.now) }
{
    match files.open_to_read(name) {
        Ok(disk) => Some(disk),
        Err(FileError::Missing) => Some(files.nothing()),
        Err(_) => None,
    }
}

/// Returns the lines of `vtl check` for the file of this name and its second file. The second file has the same name
/// with `.2` added, and may be missing. If `blocks` is true, each block of a cartridge is read to its end, which is
/// reported to `files`. No file is made or changed. Errors: `Device` where a file is not opened, or a disk fails;
/// `NoMemory` where memory runs out.
pub fn lines_of<D: Disk, F: ReadFiles<D> + ReportsRead>(
    alloc: Global,
    files: &F,
    name: &str,
    blocks: bool,
) -> Result<Bytes, VtlFault>
    ensures { GivesLines D.state D.effect F.opens_to_read F.closes name.now blocks result }
{
    let Ok(second_name) = second_file(alloc, name) else {
        return Err(VtlFault::NoMemory);
    };
    let Ok(first) = files.open_to_read(name) else {
        return Err(VtlFault::Device);
    };
    let Some(second) = second_to_read::<D, F>(files, second_name.as_str()) else {
        files.close(name, first);
        return Err(VtlFault::Device);
    };
    let reports = if blocks { Some(files) } else { None };
    let Checked {
        lines,
        first,
        second,
    } = check_side(alloc, first, second, reports);
    files.close(name, first);
    files.close(second_name.as_str(), second);
    lines
}

/// Writes the lines of `vtl check` for the file of this name and its second file, as `lines_of` returns them. Returns
/// `Done` where the files hold a cartridge or a store of reservations, `Refused` where the lines say why they hold
/// neither. Errors: those of `lines_of`, and `Device` where the writer fails.
pub fn check_named<D: Disk, F: ReadFiles<D> + ReportsRead, W: Write>(
    alloc: Global,
    files: &F,
    name: &str,
    blocks: bool,
    writer: &mut W,
) -> Result<Verdict, VtlFault>
    ensures { ChecksOrder D.state D.effect F.opens_to_read F.closes name.now blocks
        (W.contents writer.old) (W.contents writer.new) result }
{
    print_lines(lines_of::<D, F>(alloc, files, name, blocks), writer)
}
