//! Why a file is not made or opened.
use crate::failed::FailedCall;
use thiserror::Error;

/// Why a file was not made or opened.
#[derive(Clone, Copy, PartialEq, Eq, Debug, Error)]
pub enum FileError {
    /// A regular file has this name already. It was not touched.
    #[error("file exists")]
    Exists,
    /// No file has this name, or the folder in the name does not exist.
    #[error("no such file")]
    Missing,
    /// What has this name is not a regular file, or the name of a file that was to be made ends in `/`. Nothing was
    /// touched.
    #[error("not a file")]
    NotAFile,
    /// This process or another has the file open as a disk.
    #[error("file in use")]
    InUse,
    /// The system reported another error, in the call that is given here. A file that was just made is removed again,
    /// if the system can remove it.
    #[error("device fault")]
    Device(FailedCall),
}
