//! Looks at a file by its name: what has the name, and whether a cartridge's pair gate is open in it. No lock is taken.
ghost use Rattle.std.specs.Prelude.{◌≡◌, ◌↔◌, IsTrue};
ghost use Rattle.vtl_base.specs.declared.layout.TheConstants.{OPEN};

use crate::error::FileError;
use crate::failed::SystemCall;
use crate::opening::{device, error_of};
use std::fs::{self, File};
use std::io::ErrorKind;
use std::os::unix::fs::FileExt;
use vtl_base::layout::{OPEN, PAIR_GATE};

/// What a look at a regular file by its name finds.
#[derive(Clone, Copy, PartialEq, Eq, Debug)]
pub struct FileLook {
    /// How many bytes the file has.
    pub bytes: u64,
    /// Whether the name is that of a symbolic link, which leads to the file.
    pub is_link: bool,
}

/// Looks at what has this name. Nothing is opened. Errors: `Missing` where nothing has the name; `NotAFile` where it is
/// not that of a regular file, or that of a link which leads nowhere; `Device` for every other error of the system.
pub fn look(rt: &HostRuntime, path: &str) -> Result<FileLook, FileError> {
    let named = match fs::symlink_metadata(rt, path) {
        Ok(named) => named,
        Err(error) => return Err(error_of(SystemCall::Look, &error)),
    };
    match fs::metadata(rt, path) {
        Ok(found) if found.is_file() => Ok(FileLook {
            bytes: found.len(),
            is_link: named.is_symlink(),
        }),
        Ok(_) => Err(FileError::NotAFile),
        // A link that leads nowhere.
        Err(error) if error.kind() == ErrorKind::NotFound => Err(FileError::NotAFile),
        Err(error) => Err(error_of(SystemCall::Look, &error)),
    }
}

// Whether a byte is an open gate.
fn is_open(byte: u8) -> bool
    ensures { IsTrue result ↔ (byte ≡ OPEN) }
{
    byte == OPEN
}

/// Whether the byte of the pair gate, at place 9 of the regular file of this name, is that of an open gate. False where
/// the file ends before it. The file is opened for this byte alone, and read past no lock. Errors: `Missing`,
/// `NotAFile` or `Device`, as from `open`.
pub fn has_open_pair(rt: &HostRuntime, path: &str) -> Result<bool, FileError> {
    look(rt, path)?;
    let file = match File::open(rt, path) {
        Ok(file) => file,
        Err(error) => return Err(error_of(SystemCall::Open, &error)),
    };
    let mut gate = [0];
    match file.read_exact_at(&mut gate, PAIR_GATE as u64) {
        Ok(()) => Ok(is_open(gate[0])),
        Err(error) if error.kind() == ErrorKind::UnexpectedEof => Ok(false),
        Err(error) => Err(device(SystemCall::ReadAt, &error)),
    }
}
