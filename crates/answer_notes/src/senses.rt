//! Reads sense data from their bytes.
ghost use Rattle.std.specs.Prelude.{◌≡◌, IfSome, MatchOption};
ghost use Rattle.scsi_sense.specs.SenseData.{key_number, sense_bytes};
ghost use Rattle.answer_notes.specs.Causes.{IsNoKey};

use scsi_sense::{Sense, SenseKey};

// The sense key with this number, if drives and moves have it.
fn key_of(number: u8) -> Option<SenseKey>
    ensures { MatchOption result (IsNoKey number) (λ key. key_number key ≡ number) }
{
    match number {
        0x0 => Some(SenseKey::NoSense),
        0x2 => Some(SenseKey::NotReady),
        0x3 => Some(SenseKey::MediumError),
        0x4 => Some(SenseKey::HardwareError),
        0x5 => Some(SenseKey::IllegalRequest),
        0x6 => Some(SenseKey::UnitAttention),
        0x8 => Some(SenseKey::BlankCheck),
        0xb => Some(SenseKey::AbortedCommand),
        0xd => Some(SenseKey::VolumeOverflow),
        _ => None,
    }
}

// The one `Sense` that may have these bytes; None where its sense key would be another one than drives and moves have.
fn candidate(bytes: &[u8; 18]) -> Option<Sense> {
    let information = u32::from_be_bytes([bytes[3], bytes[4], bytes[5], bytes[6]]);
    Some(Sense {
        key: key_of(bytes[2] & 0x0f)?,
        code: bytes[12],
        qualifier: bytes[13],
        filemark: bytes[2] & 0x80 != 0,
        end_of_medium: bytes[2] & 0x40 != 0,
        incorrect_length: bytes[2] & 0x20 != 0,
        information: if bytes[0] & 0x80 != 0 {
            Some(information)
        } else {
            None
        },
        deferred: bytes[0] & 0x7f == 0x71,
    })
}

/// Returns the sense data that have these 18 bytes in fixed format (SPC-4); None where no `Sense` has these bytes.
pub fn sense_of(bytes: &[u8; 18]) -> Option<Sense>
    ensures { IfSome result (λ sense. sense_bytes sense ≡ bytes.now) }
{
    let sense = candidate(bytes)?;
    if sense.bytes() == *bytes {
        Some(sense)
    } else {
        None
    }
}
