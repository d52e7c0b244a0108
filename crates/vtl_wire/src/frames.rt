//! The numbers of the frame format, each written once (own).
ghost use Rattle.std.specs.Prelude.{◌≡◌};
ghost use Rattle.vtl_wire.specs.Frames.{code_of_kind, kind_with};

/// How many bytes a frame's header has.
pub const HEADER_BYTES: usize = 16;

/// How many bytes a command block has at most. It may have none.
pub const MOST_CDB: usize = 16;

/// How many bytes the two element addresses of a move have together.
pub const MOVE_BYTES: usize = 8;

/// How many bytes sense data have, where an answer has some.
pub const SENSE_BYTES: usize = 18;

/// How many bytes of data a request or an answer has at most: as many as a line of a script can hold.
pub const MOST_DATA: u32 = 1_100_000;

/// How many bytes an entry of an inventory has: 4 for an element address, and 16 for a barcode, which is padded with
/// spaces. If there is no cartridge at the address, these 16 bytes are 00h.
pub const ENTRY_BYTES: usize = 20;

/// The kind of a request, and of its answer.
#[derive(Clone, Copy, PartialEq, Eq, Debug)]
pub enum FrameKind {
    Command = 0x01,
    Move = 0x02,
    Inventory = 0x03,
}

impl FrameKind {
    /// The byte of a header that stands for this kind.
    pub fn code(self) -> u8
        ensures { result ≡ code_of_kind self }
    {
        self as u8
    }

    /// The kind that the byte `code` stands for, or None where it stands for none.
    pub fn with(code: u8) -> Option<Self>
        ensures { result ≡ kind_with code }
    {
        match code {
            0x01 => Some(FrameKind::Command),
            0x02 => Some(FrameKind::Move),
            0x03 => Some(FrameKind::Inventory),
            _ => None,
        }
    }
}
