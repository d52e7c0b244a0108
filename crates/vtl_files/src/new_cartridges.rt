//! Makes the files of a cartridge, where its first one is missing and its second one has no byte.
ghost use Rattle.std.specs.Prelude.{◌≡◌, IfOk, IfErr};
ghost use Rattle.vtl_files.specs.Creating.{AreFree, AreNotFree, AreSeen, CartridgeFile, IsMadeOrKept, IsNotMade, makes_of};

use crate::creating::{Fate, new_file, slice_of};
use crate::files::{LookFiles, MakeFiles, SecondFiles};
use cartridge::{Cartridge, CartridgeError, NotCreated};
use file_disk::FileError;
use std::alloc::Global;
use tape_disk::Disk;
use vtl_base::Barcode;
use vtl_config::{CartridgeEntry, FileName};
use vtl_faults::faults::VtlFault;

// Whether a new cartridge can have these names: nothing has the first one, and a second file, if there is one, has no
// byte. False where a regular file has the first name; then nothing else is looked at.
fn are_free<F: LookFiles>(
    files: &F,
    file: &FileName,
    second_file: &FileName,
) -> Result<bool, VtlFault>
    ensures ok { IfOk result (AreSeen F.looks file.now second_file.now) }
    ensures err { IfErr result (λ fault.
        (fault ≡ VtlFault.Device) × AreNotFree F.looks file.now second_file.now) }
{
    match files.look(file.as_str()) {
        Ok(_) => return Ok(false),
        Err(FileError::Missing) => {}
        Err(_) => return Err(VtlFault::Device),
    }
    match files.look(second_file.as_str()) {
        Ok(found) if found.bytes == 0 => Ok(true),
        Err(FileError::Missing) => Ok(true),
        _ => Err(VtlFault::Device),
    }
}

/// Makes the first file of a cartridge, if it is missing and no second file holds a byte, and returns what became of
/// it, and the barcode.
pub(crate) fn create_cartridge<D: Disk + Drop, F: MakeFiles<D> + LookFiles + SecondFiles<D>>(
    alloc: Global,
    files: &F,
    entry: CartridgeEntry,
) -> Result<(Fate, Barcode), VtlFault>
    ensures ok { IfOk result (λ made. IsMadeOrKept D.state
        (makes_of F.looks F.makes F.leaves F.takes_away F.opens_second F.closes_second)
        (CartridgeFile entry) made.0) }
    ensures label { IfOk result (λ made. made.1 ≡ entry.barcode) }
    ensures err { IfErr result (IsNotMade D.state
        (makes_of F.looks F.makes F.leaves F.takes_away F.opens_second F.closes_second)
        (CartridgeFile entry)) }
{
    if are_free(files, &entry.file, &entry.second_file)? {
        make_pair::<D, F>(alloc, files, entry)
    } else {
        Ok((Fate::Kept, entry.barcode))
    }
}

// Makes the first file of a cartridge, whose names were found free, and returns what became of it, and the barcode.
// With the first file the second one is made, with no bytes, if it is missing; else that stays as it is.
fn make_pair<D: Disk + Drop, F: MakeFiles<D> + LookFiles + SecondFiles<D>>(
    alloc: Global,
    files: &F,
    entry: CartridgeEntry,
) -> Result<(Fate, Barcode), VtlFault>
    requires { AreFree F.looks entry.file entry.second_file }
    ensures ok { IfOk result (λ made. IsMadeOrKept D.state
        (makes_of F.looks F.makes F.leaves F.takes_away F.opens_second F.closes_second)
        (CartridgeFile entry) made.0) }
    ensures label { IfOk result (λ made. made.1 ≡ entry.barcode) }
    ensures err { IfErr result (IsNotMade D.state
        (makes_of F.looks F.makes F.leaves F.takes_away F.opens_second F.closes_second)
        (CartridgeFile entry)) }
{
    let CartridgeEntry {
        barcode,
        file,
        second_file,
        capacities,
        ..
    } = entry;
    let Some((name, first)) = new_file::<D, F>(files, file)? else {
        return Ok((Fate::Kept, barcode));
    };
    let (second_name, opened) = files.open_second(second_file, false);
    let Ok(second) = opened else {
        files.take_away(name, first);
        return Err(VtlFault::Device);
    };
    match Cartridge::create(alloc, first, second, &barcode, slice_of(&capacities)) {
        Ok(shelved) => {
            let (first, second) = shelved.into_disks();
            files.leave(name, first);
            files.close_second(second_name, second);
            Ok((Fate::Created, barcode))
        }
        Err(refused) => {
            let NotCreated {
                error,
                first,
                second,
            } = refused;
            files.take_away(name, first);
            files.close_second(second_name, second);
            match error {
                CartridgeError::NoMemory => Err(VtlFault::NoMemory),
                _ => Err(VtlFault::Device),
            }
        }
    }
}
