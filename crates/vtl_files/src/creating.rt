//! Makes the missing files of a configuration.
ghost use Rattle.std.specs.Prelude.{◌≡◌, ◌++◌, ◌∷◌, [], IsTrue, IfOk, IfErr, OnOk, map, codes, decimal, string_bytes};
ghost use Rattle.std.specs.Io.KnownBytes.{Appends};
ghost use Rattle.volume_core.specs.Volume.{are_capacities};
ghost use Rattle.vtl_files.specs.Creating.{CartridgeFile, IsMadeOrKept, IsNewFile, IsNotMade, IsNotOut, StoreFile, PrintsFiles, fate_line, fate_word, files_of, makes_of};

use crate::files::{LookFiles, MakeFiles, SecondFiles};
use crate::new_cartridges::create_cartridge;
use crate::writing::print_text;
use aptpl_store::{AptplStore, StoreError, StoreRefused};
use file_disk::FileError;
use std::alloc::{AllocError, Global};
use std::io::Write;
use tape_disk::Disk;
use vtl_base::DriveNo;
use vtl_config::{Capacities, CartridgeEntry, Config, DriveEntry, FileName, UsedName};
use vtl_faults::faults::VtlFault;

/// What `create` did with a file.
#[derive(Clone, Copy, PartialEq, Eq, Debug)]
pub enum Fate {
    /// The file was missing, and was made.
    Created,
    /// Something had the file's name already, and was not touched.
    Kept,
}

// Makes a file of this name, and returns its name and a disk over it; None where something has the name already.
pub(crate) fn new_file<D, F: MakeFiles<D>>(
    files: &F,
    name: FileName,
) -> Result<Option<(UsedName, D)>, VtlFault>
    ensures { IsNewFile F.makes name result }
{
    let (name, made) = files.make(name);
    match made {
        Ok(disk) => Ok(Some((name, disk))),
        Err(FileError::Exists) => Ok(None),
        Err(_) => Err(VtlFault::Device),
    }
}

/// Returns the capacities of a cartridge's partitions: 1 to 4 of them, each of 4,096 to 1,099,511,627,776 bytes.
pub fn slice_of(capacities: &Capacities) -> &[u64]
    ensures value { result.now ≡ capacities.now }
    ensures valid { IsTrue (are_capacities result.now) }
{
    capacities.as_slice()
}

// Makes the file of a drive's reservations, where it is missing.
fn create_store<D: Disk + Drop, F: MakeFiles<D> + LookFiles + SecondFiles<D>>(
    alloc: Global,
    files: &F,
    entry: DriveEntry,
) -> Result<Fate, VtlFault>
    ensures ok { IfOk result (IsMadeOrKept D.state
        (makes_of F.looks F.makes F.leaves F.takes_away F.opens_second F.closes_second)
        (StoreFile entry)) }
    ensures err { IfErr result (IsNotMade D.state
        (makes_of F.looks F.makes F.leaves F.takes_away F.opens_second F.closes_second)
        (StoreFile entry)) }
{
    let DriveEntry {
        number,
        reservations,
    } = entry;
    let Some((name, disk)) = new_file::<D, F>(files, reservations)? else {
        return Ok(Fate::Kept);
    };
    match AptplStore::create(alloc, disk, number) {
        Ok(store) => {
            files.leave(name, store.close());
            Ok(Fate::Created)
        }
        Err(refused) => {
            let StoreRefused { error, disk } = refused;
            files.take_away(name, disk);
            match error {
                StoreError::NoMemory => Err(VtlFault::NoMemory),
                _ => Err(VtlFault::Device),
            }
        }
    }
}

// The word that reports what became of a file, with a space after it.
fn word_of(fate: Fate) -> &'static str
    ensures { result.now ≡ fate_word fate }
{
    match fate {
        Fate::Created => "created ",
        Fate::Kept => "kept ",
    }
}

// The line that reports what became of the file with this label.
fn line_of(alloc: Global, fate: Fate, label: &[u8]) -> Result<Vec<u8>, AllocError>
    ensures { IfOk result (λ line. line.items ≡ fate_line label.now fate) }
{
    let mut line = Vec::new(alloc);
    line.extend_from_slice(word_of(fate).as_bytes())?;
    line.extend_from_slice(label)?;
    line.push(b'\n')?;
    Ok(line)
}

// Reports what became of the file with this label.
fn print_fate<W: Write>(
    alloc: Global,
    writer: &mut W,
    fate: Fate,
    label: &[u8],
) -> Result<(), VtlFault>
    ensures ok { OnOk result
        (Appends (W.contents writer.old) (W.contents writer.new) (fate_line label.now fate)) }
    ensures err { IfErr result
        (IsNotOut (fate_line label.now fate) (W.contents writer.old) (W.contents writer.new)) }
{
    match line_of(alloc, fate, label) {
        Ok(line) => print_text(writer, line.as_slice()),
        Err(_) => Err(VtlFault::NoMemory),
    }
}

/// Returns the label of the file of a drive's reservations: `DRIVE` and the number of the drive.
pub fn label_of(alloc: Global, number: DriveNo) -> Result<String, AllocError>
    ensures { IfOk result (λ label. string_bytes label ≡ codes "DRIVE" ++ decimal number) }
{
    let number = number.number();
    format!(in alloc; "DRIVE{number}")
}

// Makes the files of a cartridge, if the first one is missing, and reports what became of that.
fn make_cartridge<D: Disk + Drop, F: MakeFiles<D> + LookFiles + SecondFiles<D>, W: Write>(
    alloc: Global,
    files: &F,
    entry: CartridgeEntry,
    writer: &mut W,
) -> Result<(), VtlFault>
    ensures { PrintsFiles D.state (makes_of F.looks F.makes F.leaves F.takes_away F.opens_second F.closes_second)
        (CartridgeFile entry ∷ [])
        (W.contents writer.old) (W.contents writer.new) result }
{
    match create_cartridge::<D, F>(alloc, files, entry) {
        Ok((fate, barcode)) => print_fate(alloc, writer, fate, barcode.as_bytes()),
        Err(fault) => Err(fault),
    }
}

// Makes the missing files of cartridges, and reports each.
fn make_cartridges<D: Disk + Drop, F: MakeFiles<D> + LookFiles + SecondFiles<D>, W: Write>(
    alloc: Global,
    files: &F,
    entries: Vec<CartridgeEntry>,
    writer: &mut W,
) -> Result<(), VtlFault>
    ensures { PrintsFiles D.state (makes_of F.looks F.makes F.leaves F.takes_away F.opens_second F.closes_second)
        (map CartridgeFile entries.items)
        (W.contents writer.old) (W.contents writer.new) result }
{
    for entry in entries {
        if let Err(fault) = make_cartridge::<D, F, W>(alloc, files, entry, writer) {
            return Err(fault);
        }
    }
    Ok(())
}

// Makes the file of a drive's reservations, if it is missing, and reports what became of it.
fn make_store<D: Disk + Drop, F: MakeFiles<D> + LookFiles + SecondFiles<D>, W: Write>(
    alloc: Global,
    files: &F,
    entry: DriveEntry,
    writer: &mut W,
) -> Result<(), VtlFault>
    ensures { PrintsFiles D.state (makes_of F.looks F.makes F.leaves F.takes_away F.opens_second F.closes_second)
        (StoreFile entry ∷ [])
        (W.contents writer.old) (W.contents writer.new) result }
{
    let number = entry.number;
    match create_store::<D, F>(alloc, files, entry) {
        Ok(fate) => match label_of(alloc, number) {
            Ok(label) => print_fate(alloc, writer, fate, label.as_bytes()),
            Err(_) => Err(VtlFault::NoMemory),
        },
        Err(fault) => Err(fault),
    }
}

// Makes the missing files of the reservations of drives, and reports each.
fn make_stores<D: Disk + Drop, F: MakeFiles<D> + LookFiles + SecondFiles<D>, W: Write>(
    alloc: Global,
    files: &F,
    entries: Vec<DriveEntry>,
    writer: &mut W,
) -> Result<(), VtlFault>
    ensures { PrintsFiles D.state (makes_of F.looks F.makes F.leaves F.takes_away F.opens_second F.closes_second)
        (map StoreFile entries.items)
        (W.contents writer.old) (W.contents writer.new) result }
{
    for entry in entries {
        if let Err(fault) = make_store::<D, F, W>(alloc, files, entry, writer) {
            return Err(fault);
        }
    }
    Ok(())
}

/// Makes the missing files of a configuration: those of cartridges, then those of the reservations of drives, both in
/// the order of the configuration. For each entry it writes a line to `writer`: `created NAME`, or `kept NAME` where
/// something has the file's name already, which is not touched. NAME is the barcode of the cartridge, or `DRIVE` and
/// the number of the drive. When the first file of a cartridge is made, its second file is made too, with no bytes, if
/// it is missing. Where the first file is there already, the second is not looked for. Where it is missing, and its
/// second file has a byte, that is a fault, and neither is made or changed. The first fault ends the call. If the fault
/// came while a file was being made, that file is removed, if the system can remove it; a second file is not removed.
/// Errors: `Device` where a file or the writer fails, `NoMemory` where memory runs out.
pub fn create_missing<D: Disk + Drop, F: MakeFiles<D> + LookFiles + SecondFiles<D>, W: Write>(
    alloc: Global,
    files: &F,
    config: Config,
    writer: &mut W,
) -> Result<(), VtlFault>
    ensures { PrintsFiles D.state (makes_of F.looks F.makes F.leaves F.takes_away F.opens_second F.closes_second)
        (files_of config)
        (W.contents writer.old) (W.contents writer.new) result }
{
    let Config { cartridges, drives } = config;
    if let Err(fault) = make_cartridges::<D, F, W>(alloc, files, cartridges, writer) {
        return Err(fault);
    }
    make_stores::<D, F, W>(alloc, files, drives, writer)
}
