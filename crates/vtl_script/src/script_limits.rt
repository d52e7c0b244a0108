//! The limits of a script.
ghost use Rattle.std.specs.Prelude.{◌≡◌, ◌+◌};
ghost use Rattle.vtl_script.specs.Inner.Reading.{is_within_bytes, may_read};

use vtl_base::limits::{SCRIPT_BYTES, SCRIPT_READS};

/// Whether a script that has `bytes` bytes so far may have `more` further bytes.
pub fn within_bytes(bytes: u64, more: usize) -> bool
    ensures { result ≡ is_within_bytes (bytes + more) }
{
    bytes <= SCRIPT_BYTES && more as u64 <= SCRIPT_BYTES - bytes
}

/// Whether a script for which `reads` reads were made may have one more.
pub fn within_reads(reads: u64) -> bool
    ensures { result ≡ may_read reads }
{
    reads < SCRIPT_READS
}
