//! The register after 2,048 bytes: a chain of registers for each half, side by side, since a processor then works at
//! both.
ghost use Rattle.std.specs.Prelude.{◌≡◌, ◌≤◌, ◌++◌, length};
ghost use Rattle.crc32c.specs.Crc.{fed};

use crate::eight::fed_eight;
use crate::far::far_after;

/// How many bytes each chain takes. Own.
pub(crate) const HALF: usize = 1_024;

// The register after the bytes of the first half and of the second half.
pub(crate) fn fed_pair(register: u32, first: &[u8], second: &[u8]) -> u32
    requires first { length first.now ≡ HALF }
    requires second { length second.now ≡ HALF }
    ensures { result ≡ fed register (first.now ++ second.now) }
{
    let mut one = register;
    let mut two = 0;
    'words: for i in 0..HALF / 8 {
        one = fed_eight(one, &first[8 * i..]);
        two = fed_eight(two, &second[8 * i..]);
    }
    far_after(one) ^ two
}
