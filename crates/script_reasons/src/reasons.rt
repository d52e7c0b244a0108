//! Why a line of a script is refused.
ghost use Rattle.std.specs.Prelude.{◌≡◌, ◌≤◌, IfOk, IfSome, length, string_bytes};
ghost use Rattle.script_reasons.specs.Drives.{has};
ghost use Rattle.script_reasons.specs.Reasons.{IsLineRefused, IsPartOf, bytes_of_part, IsWrongIn, IsLineReason, too_long};

use crate::drives::Drives;
use crate::fields::{Part, field_from};
use crate::wrong_fields::{
    Wrong, address_fault, drive_fault, field_too_many, hex_fault, host_fault, no_address, no_field,
    text_in,
};
use std::alloc::{AllocError, Global};
use vtl_base::limits::LINE_BYTES;
use vtl_script::lines::{ParsedLine, parse};

/// What is wrong with a line of a script, or with one of its fields. The fields are checked from left to right. After
/// `move`, a missing address is reported before an address that is not a number.
#[derive(Clone, Copy, PartialEq, Eq, Debug)]
pub enum Fault {
    /// The line has more than 2,200,000 bytes (`LINE_BYTES`).
    TooLong,
    /// HOST is not a number from 1 to 64.
    Host,
    /// DRIVE is not a number from 1 to 16.
    Drive,
    /// DRIVE is a number from 1 to 16, but there is no such drive in the configuration.
    NotConfigured,
    /// The command block, or the data, has an odd number of hexadecimal digits.
    Odd,
    /// The command block, or the data, has a byte that is not a hexadecimal digit. The part that is reported begins at
    /// the first such byte.
    NoHex,
    /// DRIVE or the command block is missing.
    Missing,
    /// The line has more fields than it may have.
    TooMany,
    /// FROM or TO is not a number of 1 to 5 digits.
    Address,
    /// FROM or TO is missing.
    NoAddress,
}

/// Why a line of a script is refused.
#[derive(Debug, Drop)]
pub struct LineReason {
    /// The line's number, counted from 1 on.
    pub line: u64,
    /// The column, counted in bytes from 1, where the wrong part begins. If something is missing, it is the column
    /// after the last byte of the line; if the line is too long, it is the column of the first byte past the limit.
    pub column: usize,
    /// What is wrong.
    pub fault: Fault,
    /// The text of the part that is wrong: a field, or the end of a field. None where a field is missing, where the
    /// line is too long, or where the part is not UTF-8.
    pub field: Option<String>,
    /// The drives that are configured.
    pub drives: Drives,
}

// Whether a line is refused. False means nothing: memory may have run out.
fn is_refused(alloc: Global, drives: &Drives, line: &[u8]) -> bool
    ensures { IsLineRefused (has drives.now) line.now result }
{
    match parse(alloc, drives, line) {
        Ok(ParsedLine::Refused) => true,
        _ => false,
    }
}

// What is wrong after `move`, which ends at place `behind`; None where nothing is.
fn move_fault(line: &[u8], behind: usize) -> Option<Wrong>
    requires { behind ≤ length line.now }
    ensures { (drives : Drives) → IfSome result (IsWrongIn drives line.now) }
{
    let Some(from) = field_from(line, behind) else {
        return no_address(line);
    };
    let Some(to) = field_from(line, from.to) else {
        return no_address(line);
    };
    if let Some(wrong) = address_fault(line, from) {
        return Some(wrong);
    }
    if let Some(wrong) = address_fault(line, to) {
        return Some(wrong);
    }
    field_too_many(line, to.to)
}

// What is wrong with the data, or after them; None where nothing is. The command block ends at place `behind`.
fn data_fault(line: &[u8], behind: usize) -> Option<Wrong>
    requires { behind ≤ length line.now }
    ensures { (drives : Drives) → IfSome result (IsWrongIn drives line.now) }
{
    let data = field_from(line, behind)?;
    if let Some(wrong) = hex_fault(line, data) {
        return Some(wrong);
    }
    field_too_many(line, data.to)
}

// What is wrong with a command whose first field is `host`; None where nothing is.
fn command_fault(drives: &Drives, line: &[u8], host: Part) -> Option<Wrong>
    requires { IsPartOf line.now host }
    ensures { IfSome result (IsWrongIn drives.now line.now) }
{
    if let Some(wrong) = host_fault(line, host) {
        return Some(wrong);
    }
    let Some(drive) = field_from(line, host.to) else {
        return no_field(line);
    };
    if let Some(wrong) = drive_fault(drives, line, drive) {
        return Some(wrong);
    }
    let Some(block) = field_from(line, drive.to) else {
        return no_field(line);
    };
    if let Some(wrong) = hex_fault(line, block) {
        return Some(wrong);
    }
    data_fault(line, block.to)
}

// What is wrong with a line that is refused.
fn fault_in(drives: &Drives, line: &[u8]) -> Option<Wrong>
    ensures { IfSome result (IsWrongIn drives.now line.now) }
{
    let first = field_from(line, 0)?;
    let word = text_in(line, first);
    if word == b"--".as_slice() {
        return field_too_many(line, first.to);
    }
    if word == b"move".as_slice() {
        return move_fault(line, first.to);
    }
    command_fault(drives, line, first)
}

// The text of a part; None where it has no bytes, or is not UTF-8.
fn field_of(alloc: Global, line: &[u8], part: Part) -> Result<Option<String>, AllocError>
    requires { IsPartOf line.now part }
    ensures { IfOk result (λ field. IfSome field (λ text. string_bytes text ≡ bytes_of_part line.now part)) }
{
    if part.from == part.to {
        return Ok(None);
    }
    match std::str::from_utf8(text_in(line, part)) {
        Ok(text) => Ok(Some(String::from_str(alloc, text)?)),
        Err(_) => Ok(None),
    }
}

impl LineReason {
    /// Returns why `line` is refused in a library of the drives `drives`, or None if it is not refused or memory runs
    /// out. `number` is the number of the line, counted from 1. `line` is passed without its line feed, and without a
    /// carriage return before that.
    pub fn of(alloc: Global, drives: Drives, number: u64, line: &[u8]) -> Option<LineReason>
        ensures { IfSome result (IsLineReason drives number line.now) }
    {
        if !is_refused(alloc, &drives, line) {
            return None;
        }
        let wrong = fault_in(&drives, line)?;
        Some(LineReason {
            line: number,
            column: wrong.part.from + 1,
            fault: wrong.fault,
            field: field_of(alloc, line, wrong.part).ok()?,
            drives,
        })
    }

    /// Returns the reason for the line with the number `number`, which has more than 2,200,000 bytes (`LINE_BYTES`).
    /// `drives` are the drives that are configured.
    pub fn too_long(drives: Drives, number: u64) -> LineReason
        ensures { result ≡ too_long drives number }
    {
        LineReason {
            line: number,
            column: LINE_BYTES + 1,
            fault: Fault::TooLong,
            field: None,
            drives,
        }
    }
}
