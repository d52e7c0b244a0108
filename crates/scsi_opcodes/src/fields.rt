//! The fields of command descriptor blocks, command by command. Each block has the length that belongs to its operation
//! code.
ghost use Rattle.std.specs.Prelude.{◌≡◌, ◌<◌, ◌≤◌, Some, length};
ghost use Rattle.scsi_opcodes.specs.Commands.{command_by_fields, is_bit_set, is_fixed, is_mode_page_known, pr_read_of, space_code, transfer_length};

use crate::commands::{Command, PrRead};
use crate::opcodes::Opcode;
use byteorder::{BigEndian, ByteOrder};
use scsi_lists::PrAction;
use vtl_base::SpaceCode;
use vtl_base::limits::MAX_BLOCK;

fn is_bit_set(byte: u8, bit: u32) -> bool
    requires { bit < 8 }
    ensures { result ≡ is_bit_set byte bit }
{
    byte >> bit & 1 == 1
}

fn is_fixed(cdb: &[u8]) -> bool
    requires { 2 ≤ length cdb.now }
    ensures { result ≡ is_fixed cdb.now }
{
    is_bit_set(cdb[1], 0)
}

fn transfer_length(cdb: &[u8]) -> u32
    requires { 5 ≤ length cdb.now }
    ensures { result ≡ transfer_length cdb.now }
{
    BigEndian::read_u24(&cdb[2..])
}

/// Reads the fields of REQUEST SENSE. Returns None where DESC is set.
pub fn request_sense(cdb: &[u8]) -> Option<Command>
    requires { 5 ≤ length cdb.now }
    ensures { result ≡ command_by_fields Opcode.RequestSense cdb.now }
{
    if is_bit_set(cdb[1], 0) {
        return None;
    }
    Some(Command::RequestSense { length: cdb[4] })
}

/// Reads the fields of READ BLOCK LIMITS. Returns None where MLOI is set.
pub fn read_block_limits(cdb: &[u8]) -> Option<Command>
    requires { 2 ≤ length cdb.now }
    ensures { result ≡ command_by_fields Opcode.ReadBlockLimits cdb.now }
{
    if is_bit_set(cdb[1], 0) {
        return None;
    }
    Some(Command::ReadBlockLimits)
}

/// Reads the fields of READ. Returns None where FIXED is set.
pub fn read(cdb: &[u8]) -> Option<Command>
    requires { 5 ≤ length cdb.now }
    ensures { result ≡ command_by_fields Opcode.Read cdb.now }
{
    if is_fixed(cdb) {
        return None;
    }
    Some(Command::Read {
        length: transfer_length(cdb),
        suppress_length: is_bit_set(cdb[1], 1),
    })
}

/// Reads the fields of WRITE. Returns None where FIXED is set or the block is longer than 1,048,576 bytes.
pub fn write(cdb: &[u8]) -> Option<Command>
    requires { 5 ≤ length cdb.now }
    ensures { result ≡ command_by_fields Opcode.Write cdb.now }
{
    let length = transfer_length(cdb);
    if is_fixed(cdb) || length > MAX_BLOCK {
        return None;
    }
    Some(Command::Write { length })
}

/// Reads the fields of WRITE FILEMARKS. No field is refused.
pub fn write_filemarks(cdb: &[u8]) -> Command
    requires { 5 ≤ length cdb.now }
    ensures { Some result ≡ command_by_fields Opcode.WriteFilemarks cdb.now }
{
    Command::WriteFilemarks {
        count: transfer_length(cdb),
        immediate: is_bit_set(cdb[1], 0),
    }
}

/// Reads the fields of SPACE. Returns None where CODE is not known.
pub fn space(cdb: &[u8]) -> Option<Command>
    requires { 5 ≤ length cdb.now }
    ensures { result ≡ command_by_fields Opcode.Space cdb.now }
{
    let code = space_code(cdb[1] % 16)?;
    Some(Command::Space {
        code,
        count: BigEndian::read_i24(&cdb[2..]),
    })
}

fn space_code(code: u8) -> Option<SpaceCode>
    ensures { result ≡ space_code code }
{
    match code {
        0 => Some(SpaceCode::Blocks),
        1 => Some(SpaceCode::Filemarks),
        3 => Some(SpaceCode::EndOfData),
        _ => None,
    }
}

/// Reads the fields of INQUIRY. Returns None where EVPD is set or PAGE CODE is not 0.
pub fn inquiry(cdb: &[u8]) -> Option<Command>
    requires { 5 ≤ length cdb.now }
    ensures { result ≡ command_by_fields Opcode.Inquiry cdb.now }
{
    if is_bit_set(cdb[1], 0) || cdb[2] != 0 {
        return None;
    }
    Some(Command::Inquiry {
        length: BigEndian::read_u16(&cdb[3..]),
    })
}

/// Reads the fields of MODE SELECT. Returns None where SP is set.
pub fn mode_select(cdb: &[u8]) -> Option<Command>
    requires { 5 ≤ length cdb.now }
    ensures { result ≡ command_by_fields Opcode.ModeSelect cdb.now }
{
    if is_bit_set(cdb[1], 0) {
        return None;
    }
    Some(Command::ModeSelect { length: cdb[4] })
}

/// Reads the fields of MODE SENSE. Returns None where PAGE CODE is neither 0 nor 3Fh.
pub fn mode_sense(cdb: &[u8]) -> Option<Command>
    requires { 5 ≤ length cdb.now }
    ensures { result ≡ command_by_fields Opcode.ModeSense cdb.now }
{
    if !is_mode_page_known(cdb) {
        return None;
    }
    Some(Command::ModeSense {
        length: cdb[4],
        disable_descriptors: is_bit_set(cdb[1], 3),
    })
}

// Whether PAGE CODE asks for no page (0), or for all pages (3Fh), of which there are none.
fn is_mode_page_known(cdb: &[u8]) -> bool
    requires { 3 ≤ length cdb.now }
    ensures { result ≡ is_mode_page_known cdb.now }
{
    matches!(cdb[2] % 64, 0x00 | 0x3f)
}

/// Reads the fields of LOAD UNLOAD. No field is refused.
pub fn load_unload(cdb: &[u8]) -> Command
    requires { 5 ≤ length cdb.now }
    ensures { Some result ≡ command_by_fields Opcode.LoadUnload cdb.now }
{
    Command::LoadUnload {
        load: is_bit_set(cdb[4], 0),
    }
}

/// Reads the fields of LOCATE. No field is refused.
pub fn locate(cdb: &[u8]) -> Command
    requires { 9 ≤ length cdb.now }
    ensures { Some result ≡ command_by_fields Opcode.Locate cdb.now }
{
    let part = if is_bit_set(cdb[1], 1) {
        Some(cdb[8])
    } else {
        None
    };
    Command::Locate {
        object: BigEndian::read_u32(&cdb[3..]),
        part,
    }
}

/// Reads the fields of READ POSITION. Returns None for every form but the short one.
pub fn read_position(cdb: &[u8]) -> Option<Command>
    requires { 2 ≤ length cdb.now }
    ensures { result ≡ command_by_fields Opcode.ReadPosition cdb.now }
{
    if cdb[1] % 32 != 0 {
        return None;
    }
    Some(Command::ReadPosition)
}

/// Reads the fields of PERSISTENT RESERVE IN. Returns None where the service action is not known.
pub fn persistent_reserve_in(cdb: &[u8]) -> Option<Command>
    requires { 9 ≤ length cdb.now }
    ensures { result ≡ command_by_fields Opcode.PersistentReserveIn cdb.now }
{
    let action = pr_read(cdb[1] % 32)?;
    Some(Command::PersistentReserveIn {
        action,
        length: BigEndian::read_u16(&cdb[7..]),
    })
}

fn pr_read(service_action: u8) -> Option<PrRead>
    ensures { result ≡ pr_read_of service_action }
{
    match service_action {
        0 => Some(PrRead::ReadKeys),
        1 => Some(PrRead::ReadReservation),
        _ => None,
    }
}

/// Reads the fields of PERSISTENT RESERVE OUT. Returns None where the service action is not known, or where no
/// reservation has the scope and type of a RESERVE or RELEASE.
pub fn persistent_reserve_out(cdb: &[u8]) -> Option<Command>
    requires { 9 ≤ length cdb.now }
    ensures { result ≡ command_by_fields Opcode.PersistentReserveOut cdb.now }
{
    let action = PrAction::of(cdb[1] % 32, cdb[2])?;
    Some(Command::PersistentReserveOut {
        action,
        length: BigEndian::read_u32(&cdb[5..]),
    })
}
