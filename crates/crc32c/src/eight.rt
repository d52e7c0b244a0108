//! The register after one byte, and after eight bytes at once.
ghost use Rattle.std.specs.Prelude.{◌≡◌, ◌≤◌, ◌<◌, ◌^◌, bit_xor, length, take};
ghost use Rattle.crc32c.specs.Crc.{fed, steps};

use crate::tables::{TABLE_0, TABLE_1, TABLE_2, TABLE_3, TABLE_4, TABLE_5, TABLE_6, TABLE_7};

// The register after one byte.
#[inline(always)]
pub(crate) fn fed_one(register: u32, byte: u8) -> u32
    ensures { result ≡ steps 8 (bit_xor register byte) }
{
    let word = register ^ byte as u32;
    (word >> 8) ^ byte_after_1(word as u64 & 0xff)
}

// The register after the first eight of these bytes.
#[inline(always)]
pub(crate) fn fed_eight(register: u32, bytes: &[u8]) -> u32
    requires { 8 ≤ length bytes.now }
    ensures { result ≡ fed register (take 8 bytes.now) }
{
    let word = u64::from_le_bytes([
        bytes[0], bytes[1], bytes[2], bytes[3], bytes[4], bytes[5], bytes[6], bytes[7],
    ]);
    after_eight(word ^ register as u64)
}

// The register after the steps of eight bytes: the exclusive-or of what is left of each byte of this word.
#[inline(always)]
fn after_eight(word: u64) -> u32
    ensures { result ≡ steps 64 word }
{
    byte_after_8(word & 0xff)
        ^ byte_after_7((word >> 8) & 0xff)
        ^ byte_after_6((word >> 16) & 0xff)
        ^ byte_after_5((word >> 24) & 0xff)
        ^ byte_after_4((word >> 32) & 0xff)
        ^ byte_after_3((word >> 40) & 0xff)
        ^ byte_after_2((word >> 48) & 0xff)
        ^ byte_after_1(word >> 56)
}

// What the steps of so many bytes make of the register that is one byte.
#[inline(always)]
fn byte_after_1(byte: u64) -> u32
    requires { byte < 256 }
    ensures { result ≡ steps 8 byte }
{
    TABLE_0[byte as usize]
}

#[inline(always)]
fn byte_after_2(byte: u64) -> u32
    requires { byte < 256 }
    ensures { result ≡ steps 16 byte }
{
    TABLE_1[byte as usize]
}

#[inline(always)]
fn byte_after_3(byte: u64) -> u32
    requires { byte < 256 }
    ensures { result ≡ steps 24 byte }
{
    TABLE_2[byte as usize]
}

#[inline(always)]
fn byte_after_4(byte: u64) -> u32
    requires { byte < 256 }
    ensures { result ≡ steps 32 byte }
{
    TABLE_3[byte as usize]
}

#[inline(always)]
fn byte_after_5(byte: u64) -> u32
    requires { byte < 256 }
    ensures { result ≡ steps 40 byte }
{
    TABLE_4[byte as usize]
}

#[inline(always)]
fn byte_after_6(byte: u64) -> u32
    requires { byte < 256 }
    ensures { result ≡ steps 48 byte }
{
    TABLE_5[byte as usize]
}

#[inline(always)]
fn byte_after_7(byte: u64) -> u32
    requires { byte < 256 }
    ensures { result ≡ steps 56 byte }
{
    TABLE_6[byte as usize]
}

#[inline(always)]
fn byte_after_8(byte: u64) -> u32
    requires { byte < 256 }
    ensures { result ≡ steps 64 byte }
{
    TABLE_7[byte as usize]
}
