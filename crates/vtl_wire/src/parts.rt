//! The two parts of a frame after its header.
ghost use Rattle.std.specs.Prelude.{◌≡◌, ◌≤◌, IfOk, IfErr};
ghost use Rattle.vtl_base.specs.declared.bytes.TheConstants.{INLINE_BYTES};
ghost use Rattle.vtl_wire.specs.Reads.{NotesFault};
ghost use Rattle.vtl_wire.specs.Inner.Answered.{MayBeHeader};
ghost use Rattle.vtl_wire.specs.Inner.Reading.{ReadsParts, MissesParts};

use crate::faults::WireFault;
use crate::headers::Header;
use crate::memory::Memory;
use crate::reading::{read_data, read_few};
use crate::reads::Reads;
use std::io::Read;
use vtl_base::Bytes;

/// What follows a header: first a command block, two element addresses or sense data, and then the data.
#[derive(Drop)]
pub(crate) struct Parts {
    pub(crate) front: Bytes,
    pub(crate) payload: Bytes,
}

// Reads the parts that a header counts. None where the input ends within them.
pub(crate) fn read_parts<R: Read>(
    memory: &Memory,
    reads: &mut Reads,
    reader: &mut R,
    header: Header,
) -> Result<Option<Parts>, WireFault>
    requires front { header.front ≤ INLINE_BYTES }
    requires head { MayBeHeader header }
    ensures parts { IfOk result
        (ReadsParts (R.remaining reader.old) (R.remaining reader.new) header.front header.payload) }
    ensures fault { IfErr result
        (MissesParts (R.remaining reader.old) (R.remaining reader.new) header.front header.payload) }
    ensures same { IfOk result (λ _. reads.new ≡ reads.old) }
    ensures noted { IfErr result (NotesFault reads.old reads.new) }
{
    let Some(front) = read_few(memory, reads, reader, header.front as usize)? else {
        return Ok(None);
    };
    match read_data(memory, reads, reader, header)? {
        Some(payload) => Ok(Some(Parts { front, payload })),
        None => Ok(None),
    }
}
