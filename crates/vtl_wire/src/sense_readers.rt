//! Sense data, read from their bytes.
ghost use Rattle.std.specs.Prelude.{◌≡◌, length, IfSome, IfNone};
ghost use Rattle.scsi_sense.specs.declared.sense_data.Sense.{Sense};
ghost use Rattle.scsi_sense.specs.SenseData.{sense_bytes};
ghost use Rattle.vtl_wire.specs.declared.frames.TheConstants.{SENSE_BYTES};
ghost use Rattle.vtl_wire.specs.Answers.{IsSense};
ghost use Rattle.vtl_wire.specs.Inner.Sensed.{key_with, sense_like};

use crate::frames::SENSE_BYTES;
use byteorder::{BigEndian, ByteOrder};
use scsi_sense::{Sense, SenseKey};

// The sense key with this number, if there is one.
fn key_with(number: u8) -> Option<SenseKey>
    ensures { result ≡ key_with number }
{
    match number {
        0x0 => Some(SenseKey::NoSense),
        0x2 => Some(SenseKey::NotReady),
        0x3 => Some(SenseKey::MediumError),
        0x4 => Some(SenseKey::HardwareError),
        0x5 => Some(SenseKey::IllegalRequest),
        0x6 => Some(SenseKey::UnitAttention),
        0x8 => Some(SenseKey::BlankCheck),
        0xb => Some(SenseKey::AbortedCommand),
        0xd => Some(SenseKey::VolumeOverflow),
        _ => None,
    }
}

// The sense data that these bytes spell, if they spell sense data: that is not checked. None where no sense key has
// their number.
fn sense_like(bytes: &[u8]) -> Option<Sense>
    requires { length bytes.now ≡ SENSE_BYTES }
    ensures like { result ≡ sense_like bytes.now }
    ensures valid { IfSome result IsSense }
{
    let key = key_with(bytes[2] % 0x20)?;
    let information = if bytes[0] >= 0x80 {
        Some(BigEndian::read_u32(&bytes[3..]))
    } else {
        None
    };
    Some(Sense {
        key,
        code: bytes[12],
        qualifier: bytes[13],
        filemark: bytes[2] >= 0x80,
        end_of_medium: bytes[2] % 0x80 >= 0x40,
        incorrect_length: bytes[2] % 0x40 >= 0x20,
        information,
        deferred: bytes[0] % 0x80 == 0x71,
    })
}

/// Reads `bytes` as sense data in fixed format (18 bytes), as `Sense::bytes` writes them. Returns None if they are not
/// exactly the bytes of some sense data.
pub fn read_sense(bytes: &[u8]) -> Option<Sense>
    ensures found { IfSome result (λ sense. IsSense sense × (bytes.now ≡ sense_bytes sense)) }
    ensures none { IfNone result ((sense : Sense) → IsSense sense → bytes.now ≡ sense_bytes sense → ⊥) }
{
    if bytes.len() != SENSE_BYTES {
        return None;
    }
    let sense = sense_like(bytes)?;
    if sense.bytes().as_slice() != bytes {
        return None;
    }
    Some(sense)
}
