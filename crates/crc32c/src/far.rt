//! The register after 8,192 steps, those of 1,024 bytes 00h.
ghost use Rattle.std.specs.Prelude.{◌≡◌, ◌<◌, ◌*◌, ◌^◌};
ghost use Rattle.crc32c.specs.Crc.{steps};

use crate::far_tables::{FAR_0, FAR_1, FAR_2, FAR_3};

// The register after 8,192 steps: the exclusive-or of what these make of each of its bytes.
#[inline(always)]
pub(crate) fn far_after(register: u32) -> u32
    ensures { result ≡ steps 8192 register }
{
    far_0(register & 0xff)
        ^ far_1((register >> 8) & 0xff)
        ^ far_2((register >> 16) & 0xff)
        ^ far_3(register >> 24)
}

#[inline(always)]
fn far_0(byte: u32) -> u32
    requires { byte < 256 }
    ensures { result ≡ steps 8192 (byte * 2 ^ 0) }
{
    FAR_0[byte as usize]
}

#[inline(always)]
fn far_1(byte: u32) -> u32
    requires { byte < 256 }
    ensures { result ≡ steps 8192 (byte * 2 ^ 8) }
{
    FAR_1[byte as usize]
}

#[inline(always)]
fn far_2(byte: u32) -> u32
    requires { byte < 256 }
    ensures { result ≡ steps 8192 (byte * 2 ^ 16) }
{
    FAR_2[byte as usize]
}

#[inline(always)]
fn far_3(byte: u32) -> u32
    requires { byte < 256 }
    ensures { result ≡ steps 8192 (byte * 2 ^ 24) }
{
    FAR_3[byte as usize]
}
