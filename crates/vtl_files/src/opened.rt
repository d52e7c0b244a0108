//! Opens both files of a cartridge.
ghost use Rattle.std.specs.Prelude.{IfOk, IfErr};
ghost use Rattle.vtl_files.specs.Opened.{AreOpened, AreNotOpened};

use crate::files::{ChangeFiles, LookFiles, SecondFiles};
use vtl_config::{FileName, UsedName};
use vtl_faults::faults::VtlFault;

/// Opens both files of a cartridge, and returns the name of each with a disk over it, the first file first. The pair
/// gate of the first one is looked at once it is open. If the second file is missing, it is made with no bytes where
/// that gate is closed; where it is open, a disk of no bytes stands for it. The error is `Device` where one of the
/// files is not opened, or the gate cannot be looked at. The disk of a first file that was opened is then returned to
/// `files`.
pub fn opened_both<D, F: ChangeFiles<D> + LookFiles + SecondFiles<D>>(
    files: &F,
    file: FileName,
    second_file: FileName,
) -> Result<((UsedName, D), (UsedName, D)), VtlFault>
    ensures ok { IfOk result (AreOpened F.opens F.pairs F.opens_second file second_file) }
    ensures err { IfErr result (AreNotOpened F.opens F.pairs F.opens_second F.returns_disk file second_file) }
{
    let (name, opened) = files.open(file);
    let first = match opened {
        Ok(disk) => disk,
        Err(_) => return Err(VtlFault::Device),
    };
    let Ok(is_paired) = files.is_paired(name.as_str()) else {
        files.return_disk(name, first);
        return Err(VtlFault::Device);
    };
    let (second_name, opened) = files.open_second(second_file, is_paired);
    match opened {
        Ok(second) => Ok(((name, first), (second_name, second))),
        Err(_) => {
            files.return_disk(name, first);
            Err(VtlFault::Device)
        }
    }
}
