//! One line of a script: its fields, and what it says.
ghost use Rattle.std.specs.Prelude.{◌≡◌, ℕ, ◌<◌, ◌≤◌, ◌*◌, ◌==◌, ◌∷◌, [], length, filter, MatchOption, Some, IfOk, IfSome, IsOk};
ghost use Rattle.std.specs.List.{slice_split};
ghost use Rattle.vtl_base.specs.declared.bytes.TheConstants.{INLINE_BYTES};
ghost use Rattle.vtl_script.specs.Lines.{line_fields, is_some_byte, decimal_of, host_of, drive_of, bytes_of, parsed_command, command_in, data_of, parse_command, parsed_move, parse_move, parse_fields};

use crate::runners::Runner;
use crate::splits::place_of;
use std::alloc::Global;
use vtl_base::bytes::INLINE_BYTES;
use vtl_base::{Bytes, DriveNo, Nexus, NoMemory};

/// A command of a script: a host sends a command block, and data with it, to a drive.
#[derive(Drop)]
pub struct Line {
    pub host: Nexus,
    pub drive: DriveNo,
    pub cdb: Bytes,
    pub sent: Bytes,
}

/// What a line of a script says.
#[derive(Drop)]
pub enum ParsedLine {
    /// The line says nothing: it has no field, or is a remark.
    Nothing,
    /// The line ends a phase and says nothing else: its only field is `--`.
    PhaseEnd,
    /// A command.
    Command(Line),
    /// A move of the cartridge at one element address to another address. The phase ends before the move.
    Move { from: u32, to: u32 },
    /// The line is refused: it has none of the forms of a line, it has more than 2,200,000 bytes, or its drive is not
    /// configured.
    Refused,
}

// What stands before the first space, and what stands after it.
fn cut(text: &[u8]) -> (&[u8], &[u8])
    requires { 0 < length text.now }
    ensures fields { line_fields text.now ≡
        filter is_some_byte (result.0.now ∷ slice_split (λ byte. byte == 32) result.1.now) }
    ensures shorter { length result.1.now < length text.now }
{
    match place_of(b' ', text) {
        Some(end) => (&text[..end], &text[end + 1..]),
        None => (text, &[]),
    }
}

// The first field, and what stands after it.
fn next_field(text: &[u8]) -> Option<(&[u8], &[u8])>
    ensures fields { MatchOption result (line_fields text.now ≡ [])
        (λ found. line_fields text.now ≡ found.0.now ∷ line_fields found.1.now) }
    ensures some { IfSome result (λ found. 0 < length found.0.now) }
{
    let mut rest = text;
    while !rest.is_empty() {
        let (field, behind) = cut(rest);
        if !field.is_empty() {
            return Some((field, behind));
        }
        rest = behind;
    }
    None
}

// A decimal number of 1 to 5 digits.
fn decimal(field: &[u8]) -> Option<u32>
    ensures { result ≡ decimal_of field.now }
{
    if field.len() > 5 {
        return None;
    }
    let mut number = 0;
    for digit in field {
        if !digit.is_ascii_digit() {
            return None;
        }
        number = 10 * number + u32::from(*digit - b'0');
    }
    Some(number)
}

fn host(field: &[u8]) -> Option<Nexus>
    ensures { result ≡ host_of field.now }
{
    Nexus::new(u8::try_from(decimal(field)?).ok()?)
}

fn drive<P: Runner>(runner: &P, field: &[u8]) -> Option<DriveNo>
    ensures { result ≡ drive_of (P.is_configured runner.now) field.now }
{
    let drive = DriveNo::new(u8::try_from(decimal(field)?).ok()?)?;
    if runner.configured(drive) {
        Some(drive)
    } else {
        None
    }
}

// The bytes that hex digits spell, at most 24. It takes no memory.
fn short_bytes(alloc: Global, field: &[u8]) -> Result<Option<Bytes>, NoMemory>
    requires { length field.now ≤ 2 * INLINE_BYTES }
    ensures bytes { IfOk result (λ bytes. bytes ≡ bytes_of field.now) }
    ensures ok { IsOk result }
{
    let mut room = [0; INLINE_BYTES];
    let count = field.len() / 2;
    match hex::decode_to_slice(field, &mut room[..count]) {
        Ok(()) => Ok(Some(Bytes::from_slice(alloc, &room[..count])?)),
        Err(_) => Ok(None),
    }
}

// The bytes that hex digits spell.
fn bytes(alloc: Global, field: &[u8]) -> Result<Option<Bytes>, NoMemory>
    ensures bytes { IfOk result (λ bytes. bytes ≡ bytes_of field.now) }
    ensures few { length field.now ≤ 2 * INLINE_BYTES → IsOk result }
{
    if field.len() <= 2 * INLINE_BYTES {
        return short_bytes(alloc, field);
    }
    match hex::decode(alloc, field) {
        Ok(bytes) => Ok(Some(Bytes::from_vec(bytes))),
        Err(hex::FromHexError::OutOfMemory) => Err(NoMemory),
        Err(_) => Ok(None),
    }
}

// The data of a command: no field, or one.
fn data(text: &[u8]) -> Option<&[u8]>
    ensures { MatchOption result (data_of (line_fields text.now) ≡ None)
        (λ field. data_of (line_fields text.now) ≡ Some field.now) }
{
    let Some((field, rest)) = next_field(text) else {
        return Some(&[]);
    };
    match next_field(rest) {
        Some(_) => None,
        None => Some(field),
    }
}

// The command of these fields.
fn command<P: Runner>(
    alloc: Global,
    runner: &P,
    from: &[u8],
    to: &[u8],
    cdb: &[u8],
    sent: &[u8],
) -> Result<ParsedLine, NoMemory>
    ensures { IfOk result (λ parsed. parsed ≡ parsed_command (host_of from.now)
        (drive_of (P.is_configured runner.now) to.now) (bytes_of cdb.now) (bytes_of sent.now)) }
{
    let Some(host) = host(from) else {
        return Ok(ParsedLine::Refused);
    };
    let Some(drive) = drive(runner, to) else {
        return Ok(ParsedLine::Refused);
    };
    let Some(cdb) = bytes(alloc, cdb)? else {
        return Ok(ParsedLine::Refused);
    };
    let Some(sent) = bytes(alloc, sent)? else {
        return Ok(ParsedLine::Refused);
    };
    Ok(ParsedLine::Command(Line {
        host,
        drive,
        cdb,
        sent,
    }))
}

// What a line says that is neither a remark nor a move. `first` is its first field, and `rest` has the others.
fn parse_command<P: Runner>(
    alloc: Global,
    runner: &P,
    first: &[u8],
    rest: &[u8],
) -> Result<ParsedLine, NoMemory>
    ensures { IfOk result (λ parsed.
        parsed ≡ parse_command (P.is_configured runner.now) first.now (line_fields rest.now)) }
{
    let Some((drive, rest)) = next_field(rest) else {
        return Ok(if first == b"--".as_slice() {
            ParsedLine::PhaseEnd
        } else {
            ParsedLine::Refused
        });
    };
    let Some((cdb, rest)) = next_field(rest) else {
        return Ok(ParsedLine::Refused);
    };
    match data(rest) {
        Some(sent) => command(alloc, runner, first, drive, cdb, sent),
        None => Ok(ParsedLine::Refused),
    }
}

// The move between the two addresses in these fields, those after `move`.
fn parse_move(rest: &[u8]) -> ParsedLine
    ensures { result ≡ parse_move (line_fields rest.now) }
{
    let Some((from, rest)) = next_field(rest) else {
        return ParsedLine::Refused;
    };
    let Some((to, rest)) = next_field(rest) else {
        return ParsedLine::Refused;
    };
    if next_field(rest).is_some() {
        return ParsedLine::Refused;
    }
    match (decimal(from), decimal(to)) {
        (Some(from), Some(to)) => ParsedLine::Move { from, to },
        _ => ParsedLine::Refused,
    }
}

/// Returns what a line says; `runner` says which drives are configured. `line` comes without its line feed, and without
/// the carriage return before that, if there is one. An error is returned where memory runs out.
pub fn parse<P: Runner>(alloc: Global, runner: &P, line: &[u8]) -> Result<ParsedLine, NoMemory>
    ensures { IfOk result (λ parsed.
        parsed ≡ parse_fields (P.is_configured runner.now) (line_fields line.now)) }
{
    let Some((first, rest)) = next_field(line) else {
        return Ok(ParsedLine::Nothing);
    };
    if first[0] == b'#' {
        return Ok(ParsedLine::Nothing);
    }
    if first == b"move".as_slice() {
        return Ok(parse_move(rest));
    }
    parse_command(alloc, runner, first, rest)
}
