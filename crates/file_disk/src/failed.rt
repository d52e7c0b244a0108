//! A failed call of the system for a file, and what the system answered.
ghost use Rattle.std.specs.Prelude.{◌≡◌};
ghost use Rattle.file_disk.specs.FailedCall.{failed_by, kind_of_none, none_moved};

use std::io::{self, ErrorKind};
use thiserror::Error;

/// A call of the system for a file.
#[derive(Clone, Copy, PartialEq, Eq, Debug)]
pub enum SystemCall {
    /// Asks for the type of the file, by the file's name or through the open file.
    Look,
    /// Opens or makes the file.
    Open,
    /// Gives the open file a descriptor number above those of the standard streams.
    Renumber,
    /// Locks the file.
    Lock,
    /// Reads bytes of the file, from a place on.
    ReadAt,
    /// Writes bytes to the file, from a place on.
    WriteAt,
    /// Removes all bytes of the file from a place on.
    Cut,
    /// Syncs the file.
    Sync,
    /// Syncs the folder that has the file's name.
    SyncFolder,
}

/// A failed call of the system for a file, and what the system answered.
#[derive(Clone, Copy, PartialEq, Eq, Debug, Error)]
#[error("a call of the system failed")]
pub struct FailedCall {
    /// The call that failed.
    pub call: SystemCall,
    /// The kind of the error. For a read that met the end of the file it is `UnexpectedEof`, for a write that wrote no
    /// byte `WriteZero`.
    pub kind: ErrorKind,
    /// The number that the system has for the error; None where it reported none.
    pub number: Option<i32>,
}

impl FailedCall {
    /// The record of the call `call`, which the system answered with `error`.
    pub fn of(call: SystemCall, error: &io::Error) -> FailedCall
        ensures { result ≡ failed_by call error.now }
    {
        FailedCall {
            call,
            kind: error.kind(),
            number: error.raw_os_error(),
        }
    }

    /// The record of the call `call`, which should have moved bytes and moved none. It has no number.
    pub fn none_moved(call: SystemCall) -> FailedCall
        ensures { result ≡ none_moved call }
    {
        FailedCall {
            call,
            kind: kind_of_none(call),
            number: None,
        }
    }
}

// The kind of error of a call that moved no bytes.
fn kind_of_none(call: SystemCall) -> ErrorKind
    ensures { result ≡ kind_of_none call }
{
    match call {
        SystemCall::WriteAt => ErrorKind::WriteZero,
        _ => ErrorKind::UnexpectedEof,
    }
}
