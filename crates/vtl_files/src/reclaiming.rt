//! Reclaims a cartridge of a configuration, and reports it by a line.
ghost use Rattle.std.specs.Prelude.{◌≡◌, ◌≤◌, ◌+◌, ◌++◌, IfErr, IfOk, Some, Ok, bytes_eq, length, vec_capacity, vec_len};
ghost use Rattle.check_lines.specs.Disks.{both, disks_checked};
ghost use Rattle.vtl_files.specs.Reclaims.{IsLine, IsUnseen, Reclaims, ReclaimsEntry, ReclaimsNamed, ReclaimsOpened, PrintsCause, PrintsReclaim, SeesPair, entry_with, not_reclaimed_line, reclaimed_line, verdict_shown};

use crate::files::{ChangeFiles, LookFiles, SecondFiles};
use crate::writing::print_text;
use cartridge::{CartridgeError, NotReclaimed, ReclaimError, Shelved};
use check_lines::checking::{Checked, bad_record_text, damaged_text, line_text};
use file_disk::FileError;
use itoa::Buffer;
use std::alloc::Global;
use std::io::Write;
use tape_buffer::reclaim;
use tape_disk::Disk;
use vtl_base::layout::BEGUN_BYTES;
use vtl_base::{Barcode, Bytes};
use vtl_config::{CartridgeEntry, Config, FileName, UsedName};
use vtl_faults::faults::{Verdict, VtlFault};

// The bytes that are reserved for the line of a reclaim. The longest line, of 16 bytes of barcode and the last epoch,
// has 54.
const LINE_ROOM: usize = 80;

// How many bytes of a second file a reclaim writes itself before it opens the pair gate. Behind a closed pair gate it
// writes over no longer file (own).
const SPARE_BYTES: u64 = BEGUN_BYTES as u64;

// Appends bytes to a text whose capacity is large enough for them.
fn put(text: &mut Vec<u8>, bytes: &[u8])
    requires { vec_len text.old + length bytes.now ≤ vec_capacity text.old }
    ensures items { text.new.items ≡ text.old.items ++ bytes.now }
    ensures len { vec_len text.new ≡ vec_len text.old + length bytes.now }
    ensures room { vec_capacity text.old ≤ vec_capacity text.new }
{
    let Ok(()) = text.extend_from_slice(bytes) else {
        unreachable!()
    };
}

// The line of a cartridge that was reclaimed, in `room`, whose capacity is large enough. It allocates nothing.
fn reclaimed_text(room: Vec<u8>, barcode: &Barcode, epoch: u64) -> Bytes
    requires { LINE_ROOM ≤ vec_capacity room }
    ensures { result ≡ reclaimed_line barcode.now epoch }
{
    let mut text = room;
    let mut digits = Buffer::new();
    text.clear();
    put(&mut text, b"reclaimed ");
    put(&mut text, barcode.as_bytes());
    put(&mut text, b" epoch ");
    put(&mut text, digits.format(epoch).as_bytes());
    put(&mut text, b"\n");
    Bytes::from_vec(text)
}

// The line of a cartridge that was not reclaimed.
fn not_reclaimed_text(alloc: Global) -> Result<Bytes, VtlFault>
    ensures { IsLine not_reclaimed_line result }
{
    line_text(format!(in alloc; "not reclaimed\n"))
}

// The line of a cartridge that was not reclaimed for this cause; or the fault, where a device failed or memory ran out.
fn refusal_text(alloc: Global, error: ReclaimError) -> Result<Bytes, VtlFault>
    ensures { PrintsCause error result }
{
    let error = match error {
        ReclaimError::Cartridge(error) => error,
        ReclaimError::EpochsSpent => CartridgeError::SideFull,
    };
    match error {
        CartridgeError::SideFull => not_reclaimed_text(alloc),
        CartridgeError::NotOurs => line_text(format!(in alloc; "not a side\n")),
        CartridgeError::Damaged { at } => damaged_text(alloc, at),
        CartridgeError::BadRecord { at } => bad_record_text(alloc, at),
        CartridgeError::Device(_) | CartridgeError::Failed => Err(VtlFault::Device),
        CartridgeError::NoMemory => Err(VtlFault::NoMemory),
    }
}

/// Reclaims the cartridge on the disks `first` and `second`. Returns the disks with a line, which says that the
/// cartridge `barcode` was reclaimed, or why it was not. The memory for the line is allocated first, so that no
/// cartridge is reclaimed without its line. If memory runs out, nothing was written. A crash at any moment, also after
/// an `Err`, leaves what a crash before the call might have left, or the same volume.
pub fn reclaim_side<D: Disk>(alloc: Global, barcode: &Barcode, first: D, second: D) -> Checked<D>
    ensures { Reclaims D.state barcode.now (both first second) (disks_checked result) result.lines }
{
    match Vec::with_capacity(alloc, LINE_ROOM) {
        Ok(room) => reclaim_with(alloc, room, barcode, first, second),
        Err(_) => Checked {
            lines: Err(VtlFault::NoMemory),
            first,
            second,
        },
    }
}

// Reclaims the cartridge on two disks. Its line is put into `room`.
fn reclaim_with<D: Disk>(
    alloc: Global,
    room: Vec<u8>,
    barcode: &Barcode,
    first: D,
    second: D,
) -> Checked<D>
    requires { LINE_ROOM ≤ vec_capacity room }
    ensures { Reclaims D.state barcode.now (both first second) (disks_checked result) result.lines }
{
    match reclaim(alloc, Shelved::of(first, second)) {
        Ok(shelved) => {
            let line = reclaimed_text(room, barcode, shelved.epoch());
            // Called for the proof: whatever crash comes, the disks give the copy.
            shelved.known();
            let (first, second) = shelved.into_disks();
            Checked {
                lines: Ok(line),
                first,
                second,
            }
        }
        Err(refused) => {
            let NotReclaimed { error, shelved } = refused;
            let (first, second) = shelved.into_disks();
            let lines = refusal_text(alloc, error);
            Checked {
                lines,
                first,
                second,
            }
        }
    }
}

// `Done` where the line of a reclaim says that the cartridge was reclaimed, `Refused` where it says why it was not.
fn verdict_of(lines: &[u8]) -> Verdict
    ensures { result ≡ verdict_shown lines.now }
{
    if lines.starts_with(b"reclaimed ") {
        Verdict::Done
    } else {
        Verdict::Refused
    }
}

// Writes the line of a reclaim, if there is one; else returns the fault.
fn print_reclaim<W: Write>(
    lines: Result<Bytes, VtlFault>,
    writer: &mut W,
) -> Result<Verdict, VtlFault>
    ensures { PrintsReclaim lines (W.contents writer.old) (W.contents writer.new) result }
{
    let lines = match lines {
        Ok(lines) => lines,
        Err(fault) => return Err(fault),
    };
    match print_text(writer, lines.as_slice()) {
        Ok(()) => Ok(verdict_of(lines.as_slice())),
        Err(fault) => Err(fault),
    }
}

// What a reclaim may do with the second file of a cartridge whose first file is open: open it, for a pair gate that is
// open (true) or closed (false); or nothing, since the gate is closed, and the name is a link's or the file has more
// bytes than a reclaim writes there itself.
fn pair_seen<F: LookFiles>(
    files: &F,
    file: &str,
    second_file: &FileName,
) -> Result<Option<bool>, VtlFault>
    ensures ok { IfOk result (SeesPair F.looks F.pairs file.now second_file.now) }
    ensures err { IfErr result (λ fault.
        (fault ≡ VtlFault.Device) × IsUnseen F.looks F.pairs file.now second_file.now) }
{
    match files.is_paired(file) {
        Ok(true) => return Ok(Some(true)),
        Ok(false) => {}
        Err(_) => return Err(VtlFault::Device),
    }
    match files.look(second_file.as_str()) {
        Ok(found) if found.is_link || found.bytes > SPARE_BYTES => Ok(None),
        Ok(_) => Ok(Some(false)),
        Err(FileError::Missing) => Ok(Some(false)),
        Err(_) => Err(VtlFault::Device),
    }
}

// Opens the second file of a cartridge beside the first one, reclaims the cartridge over both, and reports it.
fn reclaim_opened<D: Disk, F: ChangeFiles<D> + SecondFiles<D>, W: Write>(
    alloc: Global,
    files: &F,
    first: (UsedName, D),
    second_file: FileName,
    is_paired: bool,
    barcode: &Barcode,
    writer: &mut W,
) -> Result<Verdict, VtlFault>
    ensures { ReclaimsOpened D.state F.opens_second F.returns_disk F.closes_second barcode.now
        first.0 first.1 second_file is_paired
        (W.contents writer.old) (W.contents writer.new) result }
{
    let (name, first) = first;
    let (second_name, opened) = files.open_second(second_file, is_paired);
    match opened {
        Ok(second) => {
            let Checked {
                lines,
                first,
                second,
            } = reclaim_side(alloc, barcode, first, second);
            files.return_disk(name, first);
            files.close_second(second_name, second);
            print_reclaim(lines, writer)
        }
        Err(_) => {
            files.return_disk(name, first);
            Err(VtlFault::Device)
        }
    }
}

// Reclaims a cartridge over its two files, and reports it.
fn reclaim_files<D: Disk, F: ChangeFiles<D> + LookFiles + SecondFiles<D>, W: Write>(
    alloc: Global,
    files: &F,
    entry: CartridgeEntry,
    barcode: &Barcode,
    writer: &mut W,
) -> Result<Verdict, VtlFault>
    ensures { ReclaimsEntry D.state F.looks F.pairs F.opens F.opens_second F.returns_disk F.closes_second barcode.now
        (Some entry) (W.contents writer.old) (W.contents writer.new) result }
{
    let CartridgeEntry {
        file,
        second_file,
        ..
    } = entry;
    let (name, opened) = files.open(file);
    let first = match opened {
        Ok(first) => first,
        Err(_) => return Err(VtlFault::Device),
    };
    match pair_seen(files, name.as_str(), &second_file) {
        Ok(Some(is_paired)) => {
            let first = (name, first);
            reclaim_opened::<D, F, W>(alloc, files, first, second_file, is_paired, barcode, writer)
        }
        Ok(None) => {
            files.return_disk(name, first);
            print_reclaim(not_reclaimed_text(alloc), writer)
        }
        Err(fault) => {
            files.return_disk(name, first);
            Err(fault)
        }
    }
}

// Whether a cartridge has this barcode.
fn has_barcode(entry: &CartridgeEntry, barcode: &Barcode) -> bool
    ensures { result ≡ bytes_eq entry.now.barcode barcode.now }
{
    entry.barcode.as_bytes() == barcode.as_bytes()
}

// The first cartridge that has this barcode; None where none has it.
fn entry_with(entries: Vec<CartridgeEntry>, barcode: &Barcode) -> Option<CartridgeEntry>
    ensures { result ≡ entry_with barcode.now entries.items }
{
    entries
        .into_iter()
        .find(|entry| has_barcode(entry, barcode))
}

/// Reclaims the first cartridge with this barcode in a configuration, and writes one line to `writer`. The line is
/// `reclaimed BARCODE epoch E`, where E is the epoch of the copy. Where no side of the cartridge counts, the line is
/// `not a side`. Where the side that counts is damaged or has a bad frame, the line is that of `vtl check`. Where there
/// is no room or no epoch for the copy, the line is `not reclaimed`. That is the line, too, where the pair gate of the
/// first file is closed, and the second file's name is a link's, or the second file has more than ten bytes: it is
/// somebody else's, and is not opened. Returns `Done` where the cartridge was reclaimed, else `Refused`. Errors:
/// `Words` where no cartridge has the barcode, `Device` where a file or the writer fails, `NoMemory` where memory runs
/// out. A second file that is missing is made with no bytes, unless the pair gate is open.
pub fn reclaim_named<D: Disk, F: ChangeFiles<D> + LookFiles + SecondFiles<D>, W: Write>(
    alloc: Global,
    files: &F,
    config: Config,
    barcode: &Barcode,
    writer: &mut W,
) -> Result<Verdict, VtlFault>
    ensures { ReclaimsNamed D.state F.looks F.pairs F.opens F.opens_second F.returns_disk F.closes_second barcode.now
        (Ok config) (W.contents writer.old) (W.contents writer.new) result }
{
    match entry_with(config.cartridges, barcode) {
        Some(entry) => reclaim_files::<D, F, W>(alloc, files, entry, barcode, writer),
        None => Err(VtlFault::Words),
    }
}
