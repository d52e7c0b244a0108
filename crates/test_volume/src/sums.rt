//! Sums of bytes, wherever these are cut.
use crc32c::{Sum, sum_of};
use std::test::Fail;
use test_assertions::assert_equal;

// Bytes, the high ones of numbers: the first number, what each next one has more, how many there are, and their sum.
// Catalogues have the first row, RFC 3720 the next four; the last was computed bit by bit.
static ROWS: &'static [(u16, u16, u32, u32)] = &[
    (0x3100, 0x0100, 9, 0xe3069283),
    (0x0000, 0x0000, 32, 0x8a9136aa),
    (0xff00, 0x0000, 32, 0x62a8ab43),
    (0x0000, 0x0100, 32, 0x46dd794e),
    (0x1f00, 0xff00, 32, 0x113fdb5c),
    (0x0000, 0x0135, 2_100, 0x0392a09c),
];

#[test]
fn wherever_bytes_are_cut_their_sum_is_one(rt: HostRuntime) -> Result<(), Fail> {
    for &(first, more, count, wanted) in ROWS {
        let mut bytes = Vec::new(rt.alloc());
        let mut number = first;
        for _ in 0..count {
            bytes.push((number >> 8) as u8)?;
            number = number.wrapping_add(more);
        }
        for cut in 0..=bytes.len() {
            let mut sum = Sum::new();
            sum.update(&bytes[..cut]);
            sum.update(&bytes[cut..]);
            assert_equal!(rt; (sum.finish(), sum_of(&bytes)), (wanted, wanted); cut);
        }
    }
    Ok(())
}
