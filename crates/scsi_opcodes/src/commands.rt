//! Command descriptor blocks.
ghost use Rattle.std.specs.Prelude.{◌≡◌, ◌≤◌, IfSome};
ghost use Rattle.scsi_opcodes.specs.Commands.{code_of, command_of, decoded, sent_length, written_length};
ghost use Rattle.vtl_base.specs.declared.limits.TheConstants.{MAX_BLOCK};

use crate::fields;
use crate::opcodes::Opcode;
use scsi_lists::PrAction;
use scsi_sense::Sense;
use vtl_base::{ObjNo, PartNo, SpaceCode};

/// What PERSISTENT RESERVE IN reads, by its service action (SPC-4; that there are no more, own).
#[derive(Clone, Copy, PartialEq, Eq, Debug)]
pub enum PrRead {
    ReadKeys,
    ReadReservation,
}

/// A command with its fields (SPC-4, SSC-4). Lengths are in bytes.
#[derive(Clone, Copy, PartialEq, Eq, Debug)]
pub enum Command {
    TestUnitReady,
    Rewind,
    /// `length` is the room that the host has for sense data.
    RequestSense {
        length: u8,
    },
    ReadBlockLimits,
    /// `suppress_length` is SILI: where it is true, an incorrect length is not reported.
    Read {
        length: u32,
        suppress_length: bool,
    },
    Write {
        length: u32,
    },
    /// `immediate` is IMMED: where it is true, the status does not wait until all is stored.
    WriteFilemarks {
        count: u32,
        immediate: bool,
    },
    /// `count` is from -8,388,608 to 8,388,607. Where it is below 0, the motion is backward.
    Space {
        code: SpaceCode,
        count: i32,
    },
    /// `length` is the room that the host has for the data.
    Inquiry {
        length: u16,
    },
    /// `length` is that of the parameter list, which the host sends.
    ModeSelect {
        length: u8,
    },
    Erase,
    /// `length` is the room that the host has for the data. `disable_descriptors` is DBD: where it is true, the host
    /// wants no block descriptor.
    ModeSense {
        length: u8,
        disable_descriptors: bool,
    },
    /// `load` is LOAD: where it is true, the medium is loaded, else it is unloaded.
    LoadUnload {
        load: bool,
    },
    /// `part` is the partition that the command names; None where it names none (CP is 0).
    Locate {
        object: ObjNo,
        part: Option<PartNo>,
    },
    ReadPosition,
    /// `length` is the room that the host has for the data.
    PersistentReserveIn {
        action: PrRead,
        length: u16,
    },
    /// `length` is that of the parameter list, which the host sends. It may be any number that fits 4 bytes.
    PersistentReserveOut {
        action: PrAction,
        length: u32,
    },
}

/// The decoder of the command descriptor blocks that a host sends.
pub struct Cdb;

impl Command {
    /// The command in the block `cdb`, whose operation code is `opcode`; None where the block's length or one of its
    /// fields is wrong. The first byte of the block is not read.
    pub fn of(opcode: Opcode, cdb: &[u8]) -> Option<Self>
        ensures command { result ≡ command_of opcode cdb.now }
        ensures code { IfSome result (λ command. code_of command ≡ opcode) }
        ensures written { IfSome result (λ command. written_length command ≤ MAX_BLOCK) }
    {
        if cdb.len() != opcode.block_length() {
            return None;
        }
        match opcode {
            Opcode::TestUnitReady => Some(Command::TestUnitReady),
            Opcode::Rewind => Some(Command::Rewind),
            Opcode::RequestSense => fields::request_sense(cdb),
            Opcode::ReadBlockLimits => fields::read_block_limits(cdb),
            Opcode::Read => fields::read(cdb),
            Opcode::Write => fields::write(cdb),
            Opcode::WriteFilemarks => Some(fields::write_filemarks(cdb)),
            Opcode::Space => fields::space(cdb),
            Opcode::Inquiry => fields::inquiry(cdb),
            Opcode::ModeSelect => fields::mode_select(cdb),
            Opcode::Erase => Some(Command::Erase),
            Opcode::ModeSense => fields::mode_sense(cdb),
            Opcode::LoadUnload => Some(fields::load_unload(cdb)),
            Opcode::Locate => Some(fields::locate(cdb)),
            Opcode::ReadPosition => fields::read_position(cdb),
            Opcode::PersistentReserveIn => fields::persistent_reserve_in(cdb),
            Opcode::PersistentReserveOut => fields::persistent_reserve_out(cdb),
        }
    }

    /// The operation code of the command.
    pub fn opcode(self) -> Opcode
        ensures { result ≡ code_of self }
    {
        match self {
            Command::TestUnitReady => Opcode::TestUnitReady,
            Command::Rewind => Opcode::Rewind,
            Command::RequestSense { .. } => Opcode::RequestSense,
            Command::ReadBlockLimits => Opcode::ReadBlockLimits,
            Command::Read { .. } => Opcode::Read,
            Command::Write { .. } => Opcode::Write,
            Command::WriteFilemarks { .. } => Opcode::WriteFilemarks,
            Command::Space { .. } => Opcode::Space,
            Command::Inquiry { .. } => Opcode::Inquiry,
            Command::ModeSelect { .. } => Opcode::ModeSelect,
            Command::Erase => Opcode::Erase,
            Command::ModeSense { .. } => Opcode::ModeSense,
            Command::LoadUnload { .. } => Opcode::LoadUnload,
            Command::Locate { .. } => Opcode::Locate,
            Command::ReadPosition => Opcode::ReadPosition,
            Command::PersistentReserveIn { .. } => Opcode::PersistentReserveIn,
            Command::PersistentReserveOut { .. } => Opcode::PersistentReserveOut,
        }
    }

    /// How many bytes a host sends with the command: those of a WRITE's block or of a parameter list, else 0.
    pub fn sent_length(self) -> u32
        ensures { result ≡ sent_length self }
    {
        match self {
            Command::Write { length } => length,
            Command::ModeSelect { length } => u32::from(length),
            Command::PersistentReserveOut { length, .. } => length,
            _ => 0,
        }
    }
}

impl Cdb {
    /// Returns the command of a block, or the sense data with which the block is refused. An unknown or missing
    /// operation code is refused first (20/00), then a wrong length or field (24/00).
    pub fn decode(cdb: &[u8]) -> Result<Command, Sense>
        ensures { result ≡ decoded cdb.now }
    {
        let opcode = Opcode::of(cdb).ok_or(Sense::invalid_operation_code())?;
        Command::of(opcode, cdb).ok_or(Sense::invalid_field())
    }
}
