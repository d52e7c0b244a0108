//! The sum of bytes that come in pieces.
ghost use Rattle.std.specs.Prelude.{◌≡◌, [], ◌++◌, ℕ, List, ◌<◌, ◌^◌, bit_xor, take};
ghost use Rattle.crc32c.specs.Crc.{StandsBehind, crc32c, fed, steps};

use crate::eight::{fed_eight, fed_one};
use crate::pairs::{HALF, fed_pair};
use std::marker::Model;

/// The CRC-32C of bytes that come in pieces, of any number and of any length: `new`, an `update` for each piece, and
/// `finish`. A contract sees the register of the machine that `crc32c` names (RFC 3720, CRC32C). No call takes memory,
/// and none fails.
#[derive(Drop)]
pub struct Sum {
    register: u32,
}

impl Model for Sum {
    ghost use Rattle.std.specs.Prelude.{ℕ};

    ghost Value = { ℕ };

    ghost view = { λ s. s.register };
}

impl Sum {
    /// No byte came yet.
    pub fn new() -> Sum
        ensures { StandsBehind result [] }
    {
        Sum {
            register: 0xffff_ffff,
        }
    }

    /// Takes the next piece of the bytes. It may be empty.
    pub fn update(&mut self, piece: &[u8])
        ensures { (before : List ℕ) → StandsBehind self.old before → StandsBehind self.new (before ++ piece.now) }
    {
        self.register = fed(self.register, piece);
    }

    /// The sum of all bytes that came. More may come behind it.
    pub fn finish(&self) -> u32
        ensures { (bytes : List ℕ) → StandsBehind self.now bytes → result ≡ crc32c bytes }
    {
        self.register ^ 0xffff_ffff
    }
}

/// The CRC-32C of bytes that are at hand at once; of no bytes 0 (RFC 3720, CRC32C).
pub fn sum_of(bytes: &[u8]) -> u32
    ensures { result ≡ crc32c bytes.now }
{
    let mut sum = Sum::new();
    sum.update(bytes);
    sum.finish()
}

// The register after these bytes.
fn fed(register: u32, bytes: &[u8]) -> u32
    ensures { result ≡ fed register bytes.now }
{
    let mut register = register;
    let mut rest = bytes;
    'pairs: while rest.len() >= 2 * HALF {
        register = fed_pair(register, &rest[..HALF], &rest[HALF..2 * HALF]);
        rest = &rest[2 * HALF..];
    }
    fed_eights(register, rest)
}

// The register after these bytes, eight at a time.
fn fed_eights(register: u32, bytes: &[u8]) -> u32
    ensures { result ≡ fed register bytes.now }
{
    let mut register = register;
    let mut rest = bytes;
    'eights: while rest.len() >= 8 {
        register = fed_eight(register, rest);
        rest = &rest[8..];
    }
    fed_rest(register, rest)
}

// The register after these bytes, one at a time.
fn fed_rest(register: u32, bytes: &[u8]) -> u32
    ensures { result ≡ fed register bytes.now }
{
    let mut register = register;
    for byte in bytes {
        register = fed_one(register, *byte);
    }
    register
}
