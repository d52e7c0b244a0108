//! A disk that is full of frames, nearly up to the last byte that a side may have.
ghost use Rattle.std.specs.Prelude.{◌≡◌, ◌<◌, ◌+◌};

use std::alloc::Global;
use std::test::Fail;
use tape_disk::{Disk, SparseDisk};
use vtl_base::DevFault;

// The header of a cartridge of one partition of 16,777,216 bytes.
const HEADER: &'static [u8; 35] = b"\xa5VTLCART1\0\x01T00001L6        \0\0\0\0\x01\0\0\0";

// The bytes of a frame: its gate, the length of its body, and the longest body, 8,388,608 bytes.
const FRAME: u64 = 8_388_613;

// The place of the closed gate after 131,071 frames: 35 + 131,071 * 8,388,613.
const END: u64 = 1_099_503_894_558;

// Each frame has, behind its gate and length, the heads of eight blocks, each of which is written at the beginning of
// the partition. Seven have 1,048,576 bytes, and the last has 1,048,496.
const GATE: &'static [u8] = b"\xa5\0\x80\0\0";

const HEAD: &'static [u8] = b"\x01\0\0\0\0\0\0\x10\0\0";

const LAST: &'static [u8] = b"\x01\0\0\0\0\0\0\x0f\xff\xb0";

const PLACES: [u64; 9] = [
    0, 5, 1_048_591, 2_097_177, 3_145_763, 4_194_349, 5_242_935, 6_291_521, 7_340_107,
];

/// A disk whose frames are made up at each read, followed and preceded by bytes that were written. It is
/// never honest: the bytes of a block in these frames are those that the buffer has.
#[derive(Drop)]
pub struct LongDisk {
    end: u64,
    below: SparseDisk,
}

impl LongDisk {
    /// A cartridge of 131,071 frames of the longest body, with room after them for a body of 7,733,212 bytes.
    pub fn tape(alloc: Global) -> Result<LongDisk, Fail> {
        let mut below = SparseDisk::new(alloc);
        if below.write_at(0, HEADER).is_err() || below.write_at(END, &[0]).is_err() {
            return Err(Fail::from("not written"));
        }
        Ok(LongDisk { end: END, below })
    }

    /// These bytes alone.
    pub fn of(alloc: Global, bytes: &[u8]) -> Result<LongDisk, Fail> {
        let mut below = SparseDisk::new(alloc);
        if below.write_at(0, bytes).is_err() {
            return Err(Fail::from("not written"));
        }
        Ok(LongDisk { end: 0, below })
    }
}

// Puts the bytes of the frames from a place on into the buffer, except those of the blocks.
fn fill(buffer: &mut [u8], at: u64) {
    let (end, first) = (
        at.saturating_add(buffer.len() as u64),
        at.saturating_sub(35) / FRAME,
    );
    for number in [first, first.saturating_add(1)] {
        for place in PLACES {
            let bytes = match place {
                0 => GATE,
                7_340_107 => LAST,
                _ => HEAD,
            };
            let begin = number
                .saturating_mul(FRAME)
                .saturating_add(35)
                .saturating_add(place);
            if begin >= end {
                break;
            }
            for (i, byte) in bytes.iter().enumerate() {
                let there = begin.saturating_add(i as u64);
                let from = there.saturating_sub(at) as usize;
                if there >= at && from < buffer.len() {
                    buffer[from] = *byte;
                }
            }
        }
    }
}

impl Disk for LongDisk {
    ghost use Rattle.tape_disk.specs.SparseDisk.{sparse_state};

    ghost state = { λ d. sparse_state d.below };

    fn len(&self) -> u64 {
        self.below.len()
    }

    fn read_at(&mut self, at: u64, buffer: &mut [u8]) -> Result<(), DevFault> {
        if at < 35 || at.saturating_add(buffer.len() as u64) > self.end {
            return self.below.read_at(at, buffer);
        }
        fill(buffer, at);
        Ok(())
    }

    fn write_at(&mut self, at: u64, bytes: &[u8]) -> Result<(), DevFault> {
        self.below.write_at(at, bytes)
    }

    fn cut(&mut self, len: u64) -> Result<(), DevFault> {
        self.below.cut(len)
    }

    fn sync(&mut self) -> Result<(), DevFault> {
        self.below.sync()
    }

    ghost is_disk = { λ d honest. absurd honest };
}
