//! The lines that explain a refused frame.
use crate::reasons::{FrameField, FrameReason};
use explanations::Explanation;
use std::alloc::{AllocError, Global};
use vtl_base::limits::{DRIVES, NEXUSES};
use vtl_wire::frames::{MOST_CDB, MOST_DATA, MOVE_BYTES};

// The ending of a word for `count` things: `s`, or none for one thing.
fn plural(count: u32) -> &'static str {
    match count {
        1 => "",
        _ => "s",
    }
}

// What is refused.
fn refused(alloc: Global, field: FrameField) -> Result<String, AllocError> {
    match field {
        FrameField::Kind(kind) => format!(in alloc; "refused: kind {kind}"),
        FrameField::Host(host) => format!(in alloc; "refused: host {host}"),
        FrameField::Drive(drive) | FrameField::NotConfigured(drive) => {
            format!(in alloc; "refused: drive {drive}")
        }
        FrameField::Front(count) => {
            let end = plural(u32::from(count));
            format!(in alloc; "refused: {count} byte{end} before the data")
        }
        FrameField::Data(count) => {
            let end = plural(count);
            format!(in alloc; "refused: {count} byte{end} of data")
        }
        FrameField::Reserved(_) => format!(in alloc; "refused: a byte that is not 0"),
        FrameField::CutOff => format!(in alloc; "refused: the input ends inside the frame"),
    }
}

// The place of the wrong byte in the header, counted from 0; None where the input ends inside the frame.
fn place_of(field: FrameField) -> Option<u8> {
    match field {
        FrameField::Kind(_) => Some(0),
        FrameField::Host(_) => Some(1),
        FrameField::Drive(_) | FrameField::NotConfigured(_) => Some(2),
        FrameField::Front(_) => Some(3),
        FrameField::Data(_) => Some(4),
        FrameField::Reserved(place) => Some(place),
        FrameField::CutOff => None,
    }
}

// What is allowed.
fn allowed(alloc: Global, field: FrameField) -> Result<String, AllocError> {
    match field {
        FrameField::Kind(_) => {
            format!(in alloc; "allowed: 1 a command, 2 a move, 3 an inventory")
        }
        FrameField::Host(_) => {
            format!(in alloc; "allowed: 1 to {NEXUSES}, 0 in a move and in an inventory")
        }
        FrameField::Drive(_) => {
            format!(in alloc; "allowed: 1 to {DRIVES}, 0 in a move and in an inventory")
        }
        FrameField::NotConfigured(_) => { format!(in alloc; "allowed: a drive that is configured") }
        FrameField::Front(_) => format!(in alloc;
            "allowed: 0 to {MOST_CDB} in a command, {MOVE_BYTES} in a move, 0 in an inventory"
        ),
        FrameField::Data(_) => format!(in alloc;
            "allowed: 0 to {MOST_DATA} in a command, 0 in a move and in an inventory"
        ),
        FrameField::Reserved(_) => format!(in alloc; "allowed: 0"),
        FrameField::CutOff => format!(in alloc; "allowed: an end behind a frame"),
    }
}

impl FrameReason {
    /// Adds four lines to `lines`: what is refused, where, what is allowed, and what to do. If memory runs out, an
    /// error is returned, and only the first few of these lines, or none, are added.
    pub fn add_to(&self, alloc: Global, lines: &mut Explanation) -> Result<(), AllocError> {
        let refused = refused(alloc, self.field)?;
        lines.add(alloc, refused.as_str())?;
        let frame = self.frame;
        let place = match place_of(self.field) {
            Some(byte) => format!(in alloc; "where: frame {frame}, byte {byte} of its header")?,
            None => format!(in alloc; "where: frame {frame}")?,
        };
        lines.add(alloc, place.as_str())?;
        let allowed = allowed(alloc, self.field)?;
        lines.add(alloc, allowed.as_str())?;
        lines.add(
            alloc,
            "to do: correct what sends the frame; those before it were answered",
        )
    }
}
