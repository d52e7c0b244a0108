//! What is wrong with a field of a line.
ghost use Rattle.std.specs.Prelude.{◌≡◌, ◌≤◌, IfSome, length};
ghost use Rattle.std.specs.Char.{is_ascii_hexdigit};
ghost use Rattle.std.specs.List.{list_all};
ghost use Rattle.vtl_script.specs.Lines.{decimal_of};
ghost use Rattle.script_reasons.specs.Drives.{has};
ghost use Rattle.script_reasons.specs.Reasons.{IsPartOf, IsWrongIn, bytes_of_part, empty_end, starts_otherwise};

use crate::drives::Drives;
use crate::fields::{Part, field_from};
use crate::reasons::Fault;
use vtl_base::DriveNo;
use vtl_base::limits::{DRIVES, NEXUSES};
use vtl_script::Runner;

// What is wrong, and with which part of the line.
#[derive(Clone, Copy)]
pub(crate) struct Wrong {
    pub(crate) fault: Fault,
    pub(crate) part: Part,
}

// The decimal number that a field spells; None where it has more than 5 bytes, or a byte that is no digit.
fn number_in(field: &[u8]) -> Option<u32>
    ensures { result ≡ decimal_of field.now }
{
    if field.len() > 5 {
        return None;
    }
    let mut number = 0;
    for digit in field {
        if !digit.is_ascii_digit() {
            return None;
        }
        number = 10 * number + u32::from(*digit - b'0');
    }
    Some(number)
}

// The bytes of a part.
pub(crate) fn text_in<'a>(line: &'a [u8], part: Part) -> &'a [u8]
    requires { IsPartOf line.now part }
    ensures { result.now ≡ bytes_of_part line.now part }
{
    &line[part.from..part.to]
}

// The empty part at the end of a line, where something is missing.
fn end_of(line: &[u8]) -> Part
    ensures part { result ≡ empty_end line.now }
    ensures inside { IsPartOf line.now result }
{
    Part {
        from: line.len(),
        to: line.len(),
    }
}

// What is wrong with a field that should be an element address.
pub(crate) fn address_fault(line: &[u8], part: Part) -> Option<Wrong>
    requires { IsPartOf line.now part }
    ensures { (drives : Drives) → IfSome result (IsWrongIn drives line.now) }
{
    match number_in(text_in(line, part)) {
        Some(_) => None,
        None => Some(Wrong {
            fault: Fault::Address,
            part,
        }),
    }
}

// Whether a field has only hexadecimal digits.
fn is_hex(field: &[u8]) -> bool
    ensures { result ≡ list_all is_ascii_hexdigit field.now }
{
    field.iter().all(|byte| byte.is_ascii_hexdigit())
}

// Whether a field begins with a byte that is no hexadecimal digit.
fn starts_otherwise(field: &[u8]) -> bool
    ensures { result ≡ starts_otherwise field.now }
{
    match field {
        [byte, ..] => !byte.is_ascii_hexdigit(),
        [] => false,
    }
}

// What is wrong with a field that has a byte which is no hexadecimal digit; the part begins at the first such byte.
// None where there is no such byte.
fn digit_fault(line: &[u8], part: Part) -> Option<Wrong>
    requires { IsPartOf line.now part }
    ensures { (drives : Drives) → IfSome result (IsWrongIn drives line.now) }
{
    for from in part.from..part.to {
        let rest = Part { from, to: part.to };
        if starts_otherwise(text_in(line, rest)) {
            return Some(Wrong {
                fault: Fault::NoHex,
                part: rest,
            });
        }
    }
    None
}

// What is wrong with a field that should be hexadecimal digits.
pub(crate) fn hex_fault(line: &[u8], part: Part) -> Option<Wrong>
    requires { IsPartOf line.now part }
    ensures { (drives : Drives) → IfSome result (IsWrongIn drives line.now) }
{
    let text = text_in(line, part);
    if !is_hex(text) {
        return digit_fault(line, part);
    }
    if text.len() % 2 == 1 {
        return Some(Wrong {
            fault: Fault::Odd,
            part,
        });
    }
    None
}

// What is wrong with the host.
pub(crate) fn host_fault(line: &[u8], part: Part) -> Option<Wrong>
    requires { IsPartOf line.now part }
    ensures { (drives : Drives) → IfSome result (IsWrongIn drives line.now) }
{
    match number_in(text_in(line, part)) {
        Some(number) if number >= 1 && number <= NEXUSES as u32 => None,
        _ => Some(Wrong {
            fault: Fault::Host,
            part,
        }),
    }
}

// What is wrong with the drive.
pub(crate) fn drive_fault(drives: &Drives, line: &[u8], part: Part) -> Option<Wrong>
    requires { IsPartOf line.now part }
    ensures { IfSome result (IsWrongIn drives.now line.now) }
{
    let number = match number_in(text_in(line, part)) {
        Some(number) if number <= DRIVES as u32 => number as u8,
        _ => 0,
    };
    match DriveNo::new(number) {
        Some(drive) if drives.configured(drive) => None,
        Some(_) => Some(Wrong {
            fault: Fault::NotConfigured,
            part,
        }),
        None => Some(Wrong {
            fault: Fault::Drive,
            part,
        }),
    }
}

// That there is a field too many, if a field follows from place `from` on; else None.
pub(crate) fn field_too_many(line: &[u8], from: usize) -> Option<Wrong>
    requires { from ≤ length line.now }
    ensures { (drives : Drives) → IfSome result (IsWrongIn drives line.now) }
{
    let part = field_from(line, from)?;
    Some(Wrong {
        fault: Fault::TooMany,
        part,
    })
}

// That an element address is missing, at the end of the line.
pub(crate) fn no_address(line: &[u8]) -> Option<Wrong>
    ensures { (drives : Drives) → IfSome result (IsWrongIn drives line.now) }
{
    Some(Wrong {
        fault: Fault::NoAddress,
        part: end_of(line),
    })
}

// That a drive or a command block is missing, at the end of the line.
pub(crate) fn no_field(line: &[u8]) -> Option<Wrong>
    ensures { (drives : Drives) → IfSome result (IsWrongIn drives line.now) }
{
    Some(Wrong {
        fault: Fault::Missing,
        part: end_of(line),
    })
}
