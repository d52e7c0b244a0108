//! Reads of an input, and whether one failed.
ghost use Rattle.std.specs.Prelude.{◌≡◌, ◌<◌, ◌≤◌, length, take, true, false, Some, Ok, IfOk, IfErr, OnErr};
ghost use Rattle.std.specs.Io.KnownBytes.{Consumes, IsAtEnd};
ghost use Rattle.vtl_wire.specs.Inner.Reading.{count_given, count_read};

use crate::faults::WireFault;
use crate::interruptions::is_interrupted;
use std::io::Read;
use std::marker::Model;

// Makes one read into this slice. Returns how many bytes came, or None where the read was interrupted.
fn read_once<R: Read>(reader: &mut R, slice: &mut [u8]) -> Result<Option<usize>, WireFault>
    requires { 0 < length slice.old }
    ensures taken { Consumes (R.remaining reader.old) (R.remaining reader.new)
        (take (count_read result) slice.new) }
    ensures within { count_read result ≤ length slice.new }
    ensures end { result ≡ Ok (Some 0) → IsAtEnd (R.remaining reader.new) }
    ensures fault { IfErr result (λ fault. fault ≡ WireFault.ReadFault) }
{
    match reader.read(slice) {
        Ok(count) => Ok(Some(count)),
        Err(e) if is_interrupted(e.kind()) => Ok(None),
        Err(_) => Err(WireFault::ReadFault),
    }
}

// Whether a read of an input failed. A contract sees that alone. Only `Reads::read` notes a failed read. So a contract
// that wants a note for each `ReadFault` refuses a `ReadFault` with another cause.
#[derive(Drop)]
pub(crate) struct Reads {
    failed: bool,
}

impl Model for Reads {
    ghost use Rattle.std.specs.Prelude.{Bool};

    ghost Value = { Bool };

    ghost view = { λ reads. reads.failed };
}

impl Reads {
    // No read failed yet.
    pub(crate) fn new() -> Self
        ensures { result ≡ false }
    {
        Reads { failed: false }
    }

    // Whether a read failed.
    pub(crate) fn have_failed(&self) -> bool
        ensures { result ≡ self.now }
    {
        self.failed
    }

    // Reads into this slice, and returns how many bytes came: 0 only at the end. An interrupted read is made again.
    // After a failed read no other read is made.
    pub(crate) fn read<R: Read>(
        &mut self,
        reader: &mut R,
        slice: &mut [u8],
    ) -> Result<usize, WireFault>
        requires { 0 < length slice.old }
        ensures taken { Consumes (R.remaining reader.old) (R.remaining reader.new)
            (take (count_given result) slice.new) }
        ensures within { count_given result ≤ length slice.new }
        ensures end { result ≡ Ok 0 → IsAtEnd (R.remaining reader.new) }
        ensures fault { IfErr result (λ fault. fault ≡ WireFault.ReadFault) }
        ensures same { IfOk result (λ _. self.new ≡ self.old) }
        ensures noted { OnErr result (self.new ≡ true) }
    {
        for _ in 0..u64::MAX {
            match read_once(reader, slice) {
                Ok(Some(count)) => return Ok(count),
                Ok(None) => {}
                Err(fault) => {
                    self.failed = true;
                    return Err(fault);
                }
            }
        }
        self.failed = true;
        Err(WireFault::ReadFault)
    }
}
