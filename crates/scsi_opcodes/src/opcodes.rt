//! The operation codes, in one table.
ghost use Rattle.std.specs.Prelude.{◌≡◌};
ghost use Rattle.scsi_opcodes.specs.Opcodes.{new_row, row_of, opcode_at, opcode_of, block_length, length_at, is_exempt, is_stopped_by_reservation, needs_medium};

/// The operation codes that are known (SPC-4, SSC-4).
#[derive(Clone, Copy, PartialEq, Eq, Debug)]
pub enum Opcode {
    TestUnitReady,
    Rewind,
    RequestSense,
    ReadBlockLimits,
    Read,
    Write,
    WriteFilemarks,
    Space,
    Inquiry,
    ModeSelect,
    Erase,
    ModeSense,
    LoadUnload,
    Locate,
    ReadPosition,
    PersistentReserveIn,
    PersistentReserveOut,
}

/// The row of an operation code in the table.
#[derive(Clone, Copy)]
struct Row {
    code: u8,
    bytes: usize,
    exempt: bool,
    stopped: bool,
    on_medium: bool,
}

const KNOWN: [Opcode; 17] = [
    Opcode::TestUnitReady,
    Opcode::Rewind,
    Opcode::RequestSense,
    Opcode::ReadBlockLimits,
    Opcode::Read,
    Opcode::Write,
    Opcode::WriteFilemarks,
    Opcode::Space,
    Opcode::Inquiry,
    Opcode::ModeSelect,
    Opcode::Erase,
    Opcode::ModeSense,
    Opcode::LoadUnload,
    Opcode::Locate,
    Opcode::ReadPosition,
    Opcode::PersistentReserveIn,
    Opcode::PersistentReserveOut,
];

impl Row {
    fn new(code: u8, bytes: usize, exempt: bool, stopped: bool, on_medium: bool) -> Self
        ensures { result ≡ new_row code bytes exempt stopped on_medium }
    {
        Row {
            code,
            bytes,
            exempt,
            stopped,
            on_medium,
        }
    }
}

impl Opcode {
    /// The operation code of a command block, which is its first byte; None where that is unknown or missing.
    pub fn of(cdb: &[u8]) -> Option<Self>
        ensures { result ≡ opcode_of cdb.now }
    {
        Opcode::at(*cdb.first()?)
    }

    /// Whether commands with this code are exempt from the checks of the drive's state: no deferred error, unit
    /// attention condition, reservation or missing medium stops them (own).
    pub fn is_exempt(self) -> bool
        ensures { result ≡ is_exempt self }
    {
        self.row().exempt
    }

    /// Whether a reservation stops commands with this code from a host that it does not let through (own, one rule for
    /// all types).
    pub fn is_stopped_by_reservation(self) -> bool
        ensures { result ≡ is_stopped_by_reservation self }
    {
        self.row().stopped
    }

    /// Whether commands with this code need a medium that is loaded and has not failed (own).
    pub fn needs_medium(self) -> bool
        ensures { result ≡ needs_medium self }
    {
        self.row().on_medium
    }

    /// The length of a command block with this code, in bytes.
    pub fn block_length(self) -> usize
        ensures { result ≡ block_length self }
    {
        self.row().bytes
    }

    fn at(code: u8) -> Option<Self>
        ensures { result ≡ opcode_at code }
    {
        KNOWN
            .iter()
            .copied()
            .find(|opcode| opcode.row().code == code)
    }

    // The row of a code: its byte, the length of its blocks in bytes, whether it is exempt from the checks of the
    // drive's state, whether a reservation stops it, and whether it needs a medium.
    fn row(self) -> Row
        ensures { result ≡ row_of self }
    {
        match self {
            Opcode::TestUnitReady => Row::new(0x00, 6, false, false, true),
            Opcode::Rewind => Row::new(0x01, 6, false, true, true),
            Opcode::RequestSense => Row::new(0x03, 6, true, false, false),
            Opcode::ReadBlockLimits => Row::new(0x05, 6, false, false, false),
            Opcode::Read => Row::new(0x08, 6, false, true, true),
            Opcode::Write => Row::new(0x0a, 6, false, true, true),
            Opcode::WriteFilemarks => Row::new(0x10, 6, false, true, true),
            Opcode::Space => Row::new(0x11, 6, false, true, true),
            Opcode::Inquiry => Row::new(0x12, 6, true, false, false),
            Opcode::ModeSelect => Row::new(0x15, 6, false, true, false),
            Opcode::Erase => Row::new(0x19, 6, false, true, true),
            Opcode::ModeSense => Row::new(0x1a, 6, false, false, false),
            Opcode::LoadUnload => Row::new(0x1b, 6, false, true, false),
            Opcode::Locate => Row::new(0x2b, 10, false, true, true),
            Opcode::ReadPosition => Row::new(0x34, 10, false, false, true),
            Opcode::PersistentReserveIn => Row::new(0x5e, 10, false, false, false),
            Opcode::PersistentReserveOut => Row::new(0x5f, 10, false, false, false),
        }
    }
}

/// The length of a command block with this operation code, in bytes; None where the code is not known.
pub fn length_of(op: u8) -> Option<usize>
    ensures { result ≡ length_at op }
{
    Opcode::at(op).map(|opcode| opcode.block_length())
}
