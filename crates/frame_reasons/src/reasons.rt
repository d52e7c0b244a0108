//! Why a frame is refused.
use vtl_base::limits::{DRIVES, NEXUSES};
use vtl_wire::frames::{FrameKind, HEADER_BYTES, MOST_CDB, MOST_DATA, MOVE_BYTES};

/// What is wrong with a frame: a field of its header, with its value (for `Reserved`, with its index), or something
/// else.
#[derive(Clone, Copy, PartialEq, Eq, Debug)]
pub enum FrameField {
    /// No kind of frame has this number.
    Kind(u8),
    /// This host is wrong: in a command it is not 1 to 64, or in a move or an inventory it is not 0.
    Host(u8),
    /// This drive is wrong: in a command it is not 1 to 16, or in a move or an inventory it is not 0.
    Drive(u8),
    /// A frame of this kind cannot have this many bytes before its data.
    Front(u8),
    /// A frame of this kind cannot have this many bytes of data.
    Data(u32),
    /// The byte of the header at this index, from 12 to 15, is not 00h.
    Reserved(u8),
    /// The drive with this number is not configured.
    NotConfigured(u8),
    /// The input ends inside the frame.
    CutOff,
}

/// Why a frame is refused.
#[derive(Clone, Copy, PartialEq, Eq, Debug)]
pub struct FrameReason {
    /// The number of the frame, counted from 1.
    pub frame: u64,
    /// What is wrong with the frame.
    pub field: FrameField,
}

// The first of the header's last four bytes that is not 00h; None where all are.
fn reserved_field(header: &[u8; HEADER_BYTES]) -> Option<FrameField> {
    let [_, _, _, _, _, _, _, _, _, _, _, _, a, b, c, d] = *header;
    match (a, b, c, d) {
        (0, 0, 0, 0) => None,
        (0, 0, 0, _) => Some(FrameField::Reserved(15)),
        (0, 0, _, _) => Some(FrameField::Reserved(14)),
        (0, _, _, _) => Some(FrameField::Reserved(13)),
        (_, _, _, _) => Some(FrameField::Reserved(12)),
    }
}

// The first field that is wrong in the header of a command; None where none is.
fn command_field(host: u8, drive: u8, front: u8, data: u32) -> Option<FrameField> {
    if host == 0 || host > NEXUSES {
        return Some(FrameField::Host(host));
    }
    if drive == 0 || drive > DRIVES {
        return Some(FrameField::Drive(drive));
    }
    if front as usize > MOST_CDB {
        return Some(FrameField::Front(front));
    }
    if data > MOST_DATA {
        return Some(FrameField::Data(data));
    }
    None
}

// The first field that is wrong in the header of a move or an inventory; None where none is. `wanted` is how many bytes
// a frame of this kind has before its data.
fn plain_field(host: u8, drive: u8, front: u8, data: u32, wanted: usize) -> Option<FrameField> {
    if host != 0 {
        return Some(FrameField::Host(host));
    }
    if drive != 0 {
        return Some(FrameField::Drive(drive));
    }
    if front as usize != wanted {
        return Some(FrameField::Front(front));
    }
    if data != 0 {
        return Some(FrameField::Data(data));
    }
    None
}

/// Returns the first wrong field of `header`, with its value (for `Reserved`, with its index); None if no field is
/// wrong. A header with no wrong field is that of a request, though its drive may not be configured.
pub fn refused_field(header: &[u8; HEADER_BYTES]) -> Option<FrameField> {
    let [kind, host, drive, front, a, b, c, d, ..] = *header;
    let data = u32::from_be_bytes([a, b, c, d]);
    let field = match FrameKind::with(kind) {
        Some(FrameKind::Command) => command_field(host, drive, front, data),
        Some(FrameKind::Move) => plain_field(host, drive, front, data, MOVE_BYTES),
        Some(FrameKind::Inventory) => plain_field(host, drive, front, data, 0),
        None => Some(FrameField::Kind(kind)),
    };
    match field {
        Some(field) => Some(field),
        None => reserved_field(header),
    }
}
