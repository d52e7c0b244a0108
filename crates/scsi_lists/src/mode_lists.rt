//! The parameter list of MODE SELECT, and the data of MODE SENSE.
ghost use Rattle.std.specs.Prelude.{◌≡◌, ◌<◌, ◌≤◌, length, true, false};
ghost use Rattle.scsi_lists.specs.ModeLists.{buffered_mode, device_specific, fixes_block_length, has_refused_mode, mode_data, mode_decoded};

use byteorder::{BigEndian, ByteOrder};
use scsi_sense::Sense;

/// The length of the header of a mode parameter list, in bytes.
pub const MODE_HEADER_BYTES: usize = 4;

/// The length of a mode parameter list with a header and one block descriptor, in bytes.
pub const MODE_LIST_BYTES: usize = 12;

/// The mode that a parameter list of MODE SELECT asks for (SPC-4, SSC-4; which fields count, own).
#[derive(Clone, Copy, PartialEq, Eq, Debug)]
pub struct ModeList {
    /// Whether buffered mode is to be on from now on; None for an empty list, which changes nothing.
    pub buffered: Option<bool>,
}

// BUFFERED MODE, bits 6 to 4 of the device-specific parameter.
fn buffered_mode(list: &[u8]) -> u8
    requires { 2 < length list.now }
    ensures { result ≡ buffered_mode list.now }
{
    list[2] / 16 % 8
}

// Whether the list has a block descriptor that asks for blocks of one length.
fn fixes_block_length(list: &[u8]) -> bool
    ensures { result ≡ fixes_block_length list.now }
{
    list.len() == MODE_LIST_BYTES && BigEndian::read_u24(&list[9..]) != 0
}

fn has_refused_mode(list: &[u8]) -> bool
    requires { 4 ≤ length list.now }
    ensures { result ≡ has_refused_mode list.now }
{
    usize::from(list[3]) + MODE_HEADER_BYTES != list.len()
        || fixes_block_length(list)
        || buffered_mode(list) > 1
}

impl ModeList {
    /// Returns the mode that a list of MODE SELECT(6) asks for, or the sense data with which the list is refused. A
    /// length other than 0, 4 and 12 bytes is refused first (1A/00). Refused next (26/00) are a block descriptor length
    /// that is not the length of what follows the header, a block length other than 0, and a buffered mode above 1.
    /// Every other field is ignored.
    pub fn decode(list: &[u8]) -> Result<Self, Sense>
        ensures { result ≡ mode_decoded list.now }
    {
        if list.is_empty() {
            return Ok(ModeList { buffered: None });
        }
        if list.len() != MODE_HEADER_BYTES && list.len() != MODE_LIST_BYTES {
            return Err(Sense::parameter_list_length_error());
        }
        if has_refused_mode(list) {
            return Err(Sense::invalid_parameter());
        }
        Ok(ModeList {
            buffered: Some(buffered_mode(list) == 1),
        })
    }
}

fn device_specific(buffered: bool) -> u8
    ensures { result ≡ device_specific buffered }
{
    if buffered { 0x10 } else { 0x00 }
}

/// The 12 bytes of MODE SENSE(6): a header, with buffered mode 1 where `buffered` is true and else 0, and a block
/// descriptor whose 8 bytes are 0 (SPC-4, SSC-4).
pub fn mode_data(buffered: bool) -> [u8; 12]
    ensures { result ≡ mode_data buffered false }
{
    let mode = device_specific(buffered);
    [0x0b, 0, mode, 8, 0, 0, 0, 0, 0, 0, 0, 0]
}

/// The 4 bytes of MODE SENSE(6) where block descriptors are disabled (DBD): the header alone, with buffered mode 1
/// where `buffered` is true and else 0 (SPC-4, SSC-4).
pub fn mode_data_without_descriptors(buffered: bool) -> [u8; 4]
    ensures { result ≡ mode_data buffered true }
{
    let mode = device_specific(buffered);
    [0x03, 0, mode, 0]
}
