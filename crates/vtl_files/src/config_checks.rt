//! Reports what the files of a configuration hold.
ghost use Rattle.std.specs.Prelude.{◌≡◌, ◌∷◌, [], IfOk, map};
ghost use Rattle.vtl_files.specs.Creating.{CartridgeFile, StoreFile, files_of};
ghost use Rattle.vtl_files.specs.ConfigChecks.{ChecksAll, ChecksConfig, ChecksNamed, configured_line, end_for, expected_start, first_end, is_other, name_line, check_report};

use crate::creating::label_of;
use crate::files::ReadFiles;
use crate::side_checks::{lines_of, verdict_of};
use crate::writing::print_text;
use check_lines::reading::ReportsRead;
use std::alloc::{AllocError, Global};
use std::io::Write;
use tape_disk::Disk;
use vtl_base::Bytes;
use vtl_config::{CartridgeEntry, Config, DriveEntry};
use vtl_faults::faults::{Verdict, VtlFault};

/// How the check of some files ends: as that of the first one that is not whole; with `Done` where each is.
pub type CheckEnd = Result<Verdict, VtlFault>;

/// The word with which the lines of a cartridge begin.
pub const CARTRIDGE_WORD: &[u8] = b"cartridge ";

/// The word with which the line of a store begins.
pub const STORE_WORD: &[u8] = b"reservations ";

// The line that names the file of this label.
fn name_text(alloc: Global, label: &[u8], path: &str) -> Result<Vec<u8>, AllocError>
    ensures { IfOk result (λ line. line.items ≡ name_line label.now path.now) }
{
    let mut line = Vec::new(alloc);
    line.extend_from_slice(label)?;
    line.push(b' ')?;
    line.extend_from_slice(path.as_bytes())?;
    line.push(b'\n')?;
    Ok(line)
}

// How the lines of the side begin that the configuration names.
fn expected_text(alloc: Global, word: &[u8], label: &[u8]) -> Result<Vec<u8>, AllocError>
    ensures { IfOk result (λ text. text.items ≡ expected_start word.now label.now) }
{
    let mut text = Vec::new(alloc);
    text.extend_from_slice(word)?;
    text.extend_from_slice(label)?;
    text.push(b' ')?;
    Ok(text)
}

/// Whether lines say what a side holds, and it is another side than the one that the configuration names: they begin
/// with another word than this one, or have another name than this label behind it.
pub fn is_other(alloc: Global, word: &[u8], label: &[u8], lines: &[u8]) -> Result<bool, AllocError>
    ensures { IfOk result (λ other. other ≡ is_other word.now label.now lines.now) }
{
    let expected = expected_text(alloc, word, label)?;
    match verdict_of(lines) {
        Verdict::Done => Ok(!lines.starts_with(expected.as_slice())),
        Verdict::Refused => Ok(false),
    }
}

// The line that says which side the configuration names.
fn configured_text(alloc: Global, word: &[u8], label: &[u8]) -> Result<Vec<u8>, AllocError>
    ensures { IfOk result (λ line. line.items ≡ configured_line word.now label.now) }
{
    let mut line = Vec::new(alloc);
    line.extend_from_slice(b"configured as ")?;
    line.extend_from_slice(word)?;
    line.extend_from_slice(label)?;
    line.push(b'\n')?;
    Ok(line)
}

// What is written of a file behind its name: its lines, with one more where they are those of another side than the
// configuration names; or which fault came.
fn check_report(
    alloc: Global,
    word: &[u8],
    label: &[u8],
    lines: &Result<Bytes, VtlFault>,
) -> Result<Vec<u8>, AllocError>
    ensures { IfOk result (λ text. text.items ≡ check_report word.now label.now lines.now) }
{
    let lines = match lines {
        Ok(lines) => lines.as_slice(),
        Err(VtlFault::NoMemory) => return Vec::from_slice(alloc, b"out of memory\n"),
        Err(_fault) => return Vec::from_slice(alloc, b"device fault\n"),
    };
    let mut text = Vec::from_slice(alloc, lines)?;
    if is_other(alloc, word, label, lines)? {
        let line = configured_text(alloc, word, label)?;
        text.extend_from_slice(line.as_slice())?;
    }
    Ok(text)
}

// How the check of a file ends whose lines have to begin with this word.
fn end_of(word: &[u8], lines: &Result<Bytes, VtlFault>) -> CheckEnd
    ensures { result ≡ end_for word.now lines.now }
{
    match lines {
        Ok(lines) => {
            if lines.as_slice().starts_with(word) {
                Ok(Verdict::Done)
            } else {
                Ok(Verdict::Refused)
            }
        }
        Err(fault) => Err(*fault),
    }
}

// How the check of some files ends that were checked one behind the other.
fn first_of(first: CheckEnd, next: CheckEnd) -> CheckEnd
    ensures { result ≡ first_end first next }
{
    match first {
        Ok(Verdict::Done) => next,
        Ok(Verdict::Refused) => Ok(Verdict::Refused),
        Err(fault) => Err(fault),
    }
}

// Checks the file of this name, of the kind with this word, and writes its label and name, and then what it holds.
fn check_file<D: Disk, F: ReadFiles<D> + ReportsRead, W: Write>(
    alloc: Global,
    files: &F,
    word: &[u8],
    label: &[u8],
    path: &str,
    writer: &mut W,
) -> Result<CheckEnd, VtlFault>
    ensures { ChecksNamed D.state D.effect F.opens_to_read F.closes word.now label.now path.now
        (W.contents writer.old) (W.contents writer.new) result }
{
    let Ok(name) = name_text(alloc, label, path) else {
        return Err(VtlFault::NoMemory);
    };
    if let Err(fault) = print_text(writer, name.as_slice()) {
        return Err(fault);
    }
    let lines = lines_of::<D, F>(alloc, files, path, true);
    let Ok(report) = check_report(alloc, word, label, &lines) else {
        return Err(VtlFault::NoMemory);
    };
    match print_text(writer, report.as_slice()) {
        Ok(()) => Ok(end_of(word, &lines)),
        Err(fault) => Err(fault),
    }
}

// Checks the files of a cartridge.
fn check_cartridge<D: Disk, F: ReadFiles<D> + ReportsRead, W: Write>(
    alloc: Global,
    files: &F,
    entry: &CartridgeEntry,
    writer: &mut W,
) -> Result<CheckEnd, VtlFault>
    ensures { ChecksAll D.state D.effect F.opens_to_read F.closes (CartridgeFile entry.now ∷ [])
        (W.contents writer.old) (W.contents writer.new) result }
{
    let label = entry.barcode.as_bytes();
    let path = entry.file.as_str();
    check_file::<D, F, W>(alloc, files, CARTRIDGE_WORD, label, path, writer)
}

// Checks the files of cartridges.
fn check_cartridges<D: Disk, F: ReadFiles<D> + ReportsRead, W: Write>(
    alloc: Global,
    files: &F,
    entries: Vec<CartridgeEntry>,
    writer: &mut W,
) -> Result<CheckEnd, VtlFault>
    ensures { ChecksAll D.state D.effect F.opens_to_read F.closes (map CartridgeFile entries.items)
        (W.contents writer.old) (W.contents writer.new) result }
{
    let mut first: CheckEnd = Ok(Verdict::Done);
    for entry in entries {
        match check_cartridge::<D, F, W>(alloc, files, &entry, writer) {
            Ok(next) => first = first_of(first, next),
            Err(fault) => return Err(fault),
        }
    }
    Ok(first)
}

// Checks the file of a drive's reservations.
fn check_store<D: Disk, F: ReadFiles<D> + ReportsRead, W: Write>(
    alloc: Global,
    files: &F,
    entry: &DriveEntry,
    writer: &mut W,
) -> Result<CheckEnd, VtlFault>
    ensures { ChecksAll D.state D.effect F.opens_to_read F.closes (StoreFile entry.now ∷ [])
        (W.contents writer.old) (W.contents writer.new) result }
{
    let Ok(label) = label_of(alloc, entry.number) else {
        return Err(VtlFault::NoMemory);
    };
    let path = entry.reservations.as_str();
    check_file::<D, F, W>(alloc, files, STORE_WORD, label.as_bytes(), path, writer)
}

// Checks the files of the reservations of drives.
fn check_stores<D: Disk, F: ReadFiles<D> + ReportsRead, W: Write>(
    alloc: Global,
    files: &F,
    entries: Vec<DriveEntry>,
    writer: &mut W,
) -> Result<CheckEnd, VtlFault>
    ensures { ChecksAll D.state D.effect F.opens_to_read F.closes (map StoreFile entries.items)
        (W.contents writer.old) (W.contents writer.new) result }
{
    let mut first: CheckEnd = Ok(Verdict::Done);
    for entry in entries {
        match check_store::<D, F, W>(alloc, files, &entry, writer) {
            Ok(end) => first = first_of(first, end),
            Err(fault) => return Err(fault),
        }
    }
    Ok(first)
}

// Checks the files of a configuration: those of cartridges, and then those of the reservations of drives.
fn check_files<D: Disk, F: ReadFiles<D> + ReportsRead, W: Write>(
    alloc: Global,
    files: &F,
    config: Config,
    writer: &mut W,
) -> Result<CheckEnd, VtlFault>
    ensures { ChecksAll D.state D.effect F.opens_to_read F.closes (files_of config)
        (W.contents writer.old) (W.contents writer.new) result }
{
    let Config { cartridges, drives } = config;
    let first = match check_cartridges::<D, F, W>(alloc, files, cartridges, writer) {
        Ok(first) => first,
        Err(fault) => return Err(fault),
    };
    match check_stores::<D, F, W>(alloc, files, drives, writer) {
        Ok(next) => Ok(first_of(first, next)),
        Err(fault) => Err(fault),
    }
}

/// Checks the files of each entry of a configuration, as `check_named` does: those of cartridges, then those of the
/// reservations of drives, both in the order of the configuration. Each block of a cartridge is read to its end. Of
/// each entry it writes a line with the barcode, or `DRIVE` and the number of the drive, and the name of the file; and
/// behind it what the files hold, or `device fault` or `out of memory` where they were not read. Where they hold
/// another side than that of the entry, one more line says what the entry is. No fault of an entry ends the call.
/// Returns `Refused`, `Device` or `NoMemory` by the first entry whose files are not whole, or do not hold what the
/// entry is by its kind; else `Done`. The call ends with `Device` where the writer fails, and with `NoMemory` where
/// memory runs out for a line.
pub fn check_config<D: Disk, F: ReadFiles<D> + ReportsRead, W: Write>(
    alloc: Global,
    files: &F,
    config: Config,
    writer: &mut W,
) -> Result<Verdict, VtlFault>
    ensures { ChecksConfig D.state D.effect F.opens_to_read F.closes (files_of config)
        (W.contents writer.old) (W.contents writer.new) result }
{
    match check_files::<D, F, W>(alloc, files, config, writer) {
        Ok(end) => end,
        Err(fault) => Err(fault),
    }
}
