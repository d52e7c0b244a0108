//! Sense data and its bytes.
ghost use Rattle.std.specs.Prelude.{◌≡◌, ◌<◌};
ghost use Rattle.scsi_sense.specs.SenseData.{bit_if, key_number, plain_sense, sense_bytes};

/// The kind of condition that is reported (SPC-4, sense key).
#[derive(Clone, Copy, PartialEq, Eq, Debug)]
pub enum SenseKey {
    NoSense = 0x0,
    NotReady = 0x2,
    MediumError = 0x3,
    HardwareError = 0x4,
    IllegalRequest = 0x5,
    UnitAttention = 0x6,
    BlankCheck = 0x8,
    AbortedCommand = 0xb,
    VolumeOverflow = 0xd,
}

/// Sense data in fixed format (SPC-4). `code` and `qualifier` are ASC and ASCQ, and `incorrect_length` is ILI. Where
/// `information` is None, VALID is 0. `deferred` is true for a deferred error.
#[derive(Clone, Copy, PartialEq, Eq, Debug)]
pub struct Sense {
    pub key: SenseKey,
    pub code: u8,
    pub qualifier: u8,
    pub filemark: bool,
    pub end_of_medium: bool,
    pub incorrect_length: bool,
    pub information: Option<u32>,
    pub deferred: bool,
}

fn bit_if(set: bool, value: u8) -> u8
    ensures { result ≡ bit_if set value }
{
    if set { value } else { 0 }
}

impl SenseKey {
    fn number(self) -> u8
        ensures number { result ≡ key_number self }
        ensures range { result < 16 }
    {
        self as u8
    }
}

impl Sense {
    /// Sense data with this key, additional sense code and qualifier alone: every flag is false, and there is no
    /// information.
    pub(crate) fn plain(key: SenseKey, code: u8, qualifier: u8) -> Self
        ensures { result ≡ plain_sense key code qualifier }
    {
        Sense {
            key,
            code,
            qualifier,
            filemark: false,
            end_of_medium: false,
            incorrect_length: false,
            information: None,
            deferred: false,
        }
    }

    /// The 18 bytes that a host sees.
    pub fn bytes(&self) -> [u8; 18]
        ensures { result ≡ sense_bytes self.now }
    {
        let response = if self.deferred { 0x71 } else { 0x70 };
        let valid = bit_if(self.information.is_some(), 0x80);
        let flags = bit_if(self.filemark, 0x80)
            + bit_if(self.end_of_medium, 0x40)
            + bit_if(self.incorrect_length, 0x20);
        let [a, b, c, d] = self.information.unwrap_or(0).to_be_bytes();
        [
            response + valid,
            0,
            flags + self.key.number(),
            a,
            b,
            c,
            d,
            0x0a,
            0,
            0,
            0,
            0,
            self.code,
            self.qualifier,
            0,
            0,
            0,
            0,
        ]
    }
}
