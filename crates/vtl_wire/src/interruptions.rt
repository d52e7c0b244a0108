//! Calls of a reader or a writer that were interrupted, and are made again.
ghost use Rattle.std.specs.Prelude.{◌≡◌, ◌↔◌, IsTrue};

use std::io::ErrorKind;

/// Whether an error of this kind says that a read or a write was interrupted, so that the call is made again. A call
/// that would block, or that timed out, was not interrupted.
pub(crate) fn is_interrupted(kind: ErrorKind) -> bool
    ensures { IsTrue result ↔ (kind ≡ ErrorKind.Interrupted) }
{
    kind == ErrorKind::Interrupted
}
