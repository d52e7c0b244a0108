//! Keeps the header of the frame that was read last, to say why that frame is refused.
use crate::reasons::{FrameField, FrameReason, refused_field};
use vtl_wire::frames::HEADER_BYTES;

/// What is noted of the frames that are read: their number, the header of the last one, and how many of the bytes that
/// follow this header are still to come.
#[derive(Clone, Copy, Debug)]
pub struct FrameNotes {
    frames: u64,
    header: [u8; HEADER_BYTES],
    filled: usize,
    left: u64,
}

impl FrameNotes {
    /// Creates notes in which no frame has been read.
    pub fn new() -> Self {
        FrameNotes {
            frames: 0,
            header: [0; HEADER_BYTES],
            filled: 0,
            left: 0,
        }
    }

    /// Adds to the notes the next `bytes` that were read.
    pub fn add(&mut self, bytes: &[u8]) {
        for byte in bytes {
            self.add_byte(*byte);
        }
    }

    fn add_byte(&mut self, byte: u8) {
        if self.filled >= HEADER_BYTES {
            if self.left > 0 {
                self.left -= 1;
                return;
            }
            self.filled = 0;
        }
        if self.filled == 0 {
            self.frames = self.frames.saturating_add(1);
        }
        self.header[self.filled] = byte;
        self.filled += 1;
        if self.filled == HEADER_BYTES {
            self.left = counted(&self.header);
        }
    }

    /// Returns why the frame that was read last is refused, or None if no frame was read. The caller must know that the
    /// frame is refused: a whole frame whose header has no wrong field is reported as one for a drive that is not
    /// configured.
    pub fn reason(&self) -> Option<FrameReason> {
        if self.frames == 0 {
            return None;
        }
        let is_whole = self.filled >= HEADER_BYTES;
        let field = match refused_field(&self.header) {
            Some(field) if is_whole => field,
            None if is_whole && self.left == 0 => FrameField::NotConfigured(self.header[2]),
            _ => FrameField::CutOff,
        };
        Some(FrameReason {
            frame: self.frames,
            field,
        })
    }
}

// How many bytes follow a header, by its two lengths.
fn counted(header: &[u8; HEADER_BYTES]) -> u64 {
    let [_, _, _, front, a, b, c, d, ..] = *header;
    u64::from(front) + u64::from(u32::from_be_bytes([a, b, c, d]))
}
