//! The data of the commands that ask about the drive itself.
ghost use Rattle.std.specs.Prelude.{◌≡◌};
ghost use Rattle.scsi_opcodes.specs.Answers.{block_limits, cut_to, inquiry_data};

use byteorder::{BigEndian, ByteOrder};
use vtl_base::limits::MAX_BLOCK;

/// The 36 bytes of standard INQUIRY data (SPC-4): a sequential-access device with a removable
/// medium, and its vendor, product and revision (own).
pub fn inquiry_data() -> [u8; 36]
    ensures { result ≡ inquiry_data }
{
    *b"\x01\x80\x06\x02\x1f\x00\x00\x00VTLIB   TAPE DRIVE      0001"
}

/// The 6 bytes of READ BLOCK LIMITS (SSC-4): a block has 1 to 1,048,576 bytes.
pub fn block_limits() -> [u8; 6]
    ensures { result ≡ block_limits }
{
    let mut limits = [0, 0, 0, 0, 0, 1];
    BigEndian::write_u24(&mut limits[1..4], MAX_BLOCK);
    limits
}

/// The first `allocation` of these bytes, or all where there are fewer: the part for which a host has room (SPC-4,
/// ALLOCATION LENGTH).
pub fn cut_to(bytes: &[u8], allocation: usize) -> &[u8]
    ensures { result.now ≡ cut_to allocation bytes.now }
{
    &bytes[..allocation.min(bytes.len())]
}
