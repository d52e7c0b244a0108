//! The lines that explain a refused line of a script.
ghost use Rattle.std.specs.Prelude.{◌≡◌, ◌≤◌, ◌++◌, IfOk, OnOk, string_bytes};
ghost use Rattle.std.specs.Char.{is_ascii_graphic};
ghost use Rattle.std.specs.List.{list_all};
ghost use Rattle.script_reasons.specs.Texts.{with_number, with_configured, listed, configured_of, drives_text, fault_subject, no_field, field_text, unprinted_note, fault_allowed, fault_refused, column_text, fix_text, reason_lines};

use crate::drives::Drives;
use crate::reasons::{Fault, LineReason};
use explanations::Explanation;
use std::alloc::{AllocError, Global};
use vtl_base::DriveNo;
use vtl_base::limits::{DRIVES, LINE_BYTES, NEXUSES};
use vtl_script::Runner;

// Adds a number, after a comma where it is not the first.
fn add_number(text: &mut String, number: u8) -> Result<(), AllocError>
    ensures { OnOk result (string_bytes text.new ≡ with_number (string_bytes text.old) number) }
{
    if !text.is_empty() {
        text.push_str(", ")?;
    }
    write!(text, "{number}")?;
    Ok(())
}

// Adds the number of a drive, if the drive is configured; else nothing.
fn add_drive(text: &mut String, drives: &Drives, number: u8) -> Result<(), AllocError>
    requires { (1 ≤ number) × (number ≤ 16) }
    ensures { OnOk result (string_bytes text.new ≡ with_configured drives.now (string_bytes text.old) number) }
{
    match DriveNo::new(number) {
        Some(drive) if drives.configured(drive) => add_number(text, number),
        _ => Ok(()),
    }
}

// The numbers of the drives that are configured, separated by commas.
fn numbers_of(alloc: Global, drives: &Drives) -> Result<String, AllocError>
    ensures { IfOk result (λ text. string_bytes text ≡ listed (configured_of drives.now)) }
{
    let mut text = String::new(alloc);
    for place in 0..DRIVES {
        add_drive(&mut text, drives, place + 1)?;
    }
    Ok(text)
}

// The numbers of the drives that are configured, or words that say that none is.
fn drives_text(alloc: Global, drives: &Drives) -> Result<String, AllocError>
    ensures { IfOk result (λ text. string_bytes text ≡ drives_text drives.now) }
{
    let numbers = numbers_of(alloc, drives)?;
    if numbers.is_empty() {
        String::from_str(alloc, "and none is")
    } else {
        Ok(numbers)
    }
}

// What is refused: the words before the field.
fn subject_of(fault: Fault) -> &'static str
    ensures { result.now ≡ fault_subject fault }
{
    match fault {
        Fault::TooLong => "the line is too long",
        Fault::Host => "HOST is ",
        Fault::Drive | Fault::NotConfigured => "DRIVE is ",
        Fault::Odd => "an odd number of hexadecimal digits, ",
        Fault::NoHex => "no hexadecimal digits, ",
        Fault::Missing => "DRIVE or the command block is missing",
        Fault::TooMany => "a field too many, ",
        Fault::Address => "an element address is ",
        Fault::NoAddress => "an element address is missing",
    }
}

// What is shown in place of a field, where there is none or it is not UTF-8.
fn no_field(fault: Fault) -> &'static str
    ensures { result.now ≡ no_field fault }
{
    match fault {
        Fault::TooLong | Fault::Missing | Fault::NoAddress => "",
        _ => "no text",
    }
}

// The field, or what is shown in its place.
fn text_of(fault: Fault, field: &Option<String>) -> &str
    ensures { result.now ≡ field_text fault field.now }
{
    match field {
        Some(field) => field.as_str(),
        None => no_field(fault),
    }
}

// What is allowed.
fn allowed(alloc: Global, fault: Fault, drives: &Drives) -> Result<String, AllocError>
    ensures { IfOk result (λ text. string_bytes text ≡ fault_allowed fault drives.now) }
{
    match fault {
        Fault::TooLong => format!(in alloc; "allowed: {LINE_BYTES} bytes"),
        Fault::Host => format!(in alloc;
            "allowed: 1 to {NEXUSES}; a line may also be move FROM TO or --, or begin with #"
        ),
        Fault::Drive | Fault::NotConfigured => {
            let numbers = drives_text(alloc, drives)?;
            format!(in alloc; "allowed: a drive that is configured, {numbers}")
        }
        Fault::Odd | Fault::NoHex => format!(in alloc;
            "allowed: two hexadecimal digits for each byte"
        ),
        Fault::Missing | Fault::TooMany => {
            format!(in alloc; "allowed: HOST DRIVE CDB [DATA], move FROM TO, or --")
        }
        Fault::Address | Fault::NoAddress => {
            format!(in alloc; "allowed: move FROM TO, each a number of 1 to 5 digits")
        }
    }
}

// Whether each of these bytes is shown as it is: a printable ASCII character other than the space.
fn is_printed(field: &[u8]) -> bool
    ensures { result ≡ list_all is_ascii_graphic field.now }
{
    field.iter().all(|byte| byte.is_ascii_graphic())
}

// The note after a field that has a byte which is shown as a question mark; empty for any other. A field has no spaces.
fn unprinted_note(field: &Option<String>) -> &'static str
    ensures { result.now ≡ unprinted_note field.now }
{
    match field {
        Some(field) if !is_printed(field.as_bytes()) => " (? is no printable ASCII character)",
        _ => "",
    }
}

// What is refused, with the field.
#[tactic(auto, unfolding(crate::specs::Texts::fault_refused))]
fn refused(alloc: Global, fault: Fault, field: &Option<String>) -> Result<String, AllocError>
    ensures { IfOk result (λ text. string_bytes text ≡ fault_refused fault field.now) }
{
    let note = unprinted_note(field);
    let (subject, field) = (subject_of(fault), text_of(fault, field));
    format!(in alloc; "refused: {subject}{field}{note}")
}

// Where the field begins.
#[tactic(auto, unfolding(crate::specs::Texts::column_text))]
fn place(alloc: Global, line: u64, column: usize) -> Result<String, AllocError>
    ensures { IfOk result (λ text. string_bytes text ≡ column_text line column) }
{
    format!(in alloc; "where: line {line} of the script, column {column}")
}

// What to do.
#[tactic(auto, unfolding(crate::specs::Texts::fix_text))]
fn fix() -> &'static str
    ensures { result.now ≡ fix_text }
{
    "to do: correct the line; the phases before its own were carried out"
}

impl LineReason {
    /// Adds four lines to `lines`: what is refused, where, what is allowed, and what to do. If memory runs out, only
    /// the first few of these lines, or none, are added.
    pub fn add_to(&self, alloc: Global, lines: &mut Explanation) -> Result<(), AllocError>
        ensures { OnOk result (lines.new ≡ lines.old ++ reason_lines self.now) }
    {
        let refused = refused(alloc, self.fault, &self.field)?;
        let place = place(alloc, self.line, self.column)?;
        let allowed = allowed(alloc, self.fault, &self.drives)?;
        lines.add(alloc, refused.as_str())?;
        lines.add(alloc, place.as_str())?;
        lines.add(alloc, allowed.as_str())?;
        lines.add(alloc, fix())
    }
}
