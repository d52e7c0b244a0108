//! Laws of the definitions, which no code calls.
ghost use Rattle.std.specs.Prelude.{◌≡◌, ◌<◌, ◌*◌, ◌^◌, ◌++◌, ℕ, List, length, bit_xor};
ghost use Rattle.crc32c.specs.Crc.{AreBytes, ONES, crc32c, fed};
ghost use Rattle.crc32c.specs.Known.{KnownSums};
ghost use Rattle.crc32c.specs.Remainder.{IsRemainder, low_first};

/// The register after bytes is a remainder of polynomials over two elements: the word of these bytes and 32 zeros
/// behind them, with its first 32 bits turned over, is a multiple of the divisor and the register.
pub fn the_register_is_a_remainder()
    ensures { (bytes : List ℕ) → AreBytes bytes →
        IsRemainder (8 * length bytes) (bit_xor ONES (low_first bytes)) (fed ONES bytes) }
{}

/// A sum has 32 bits.
pub fn a_sum_has_32_bits()
    ensures { (bytes : List ℕ) → AreBytes bytes → crc32c bytes < 2 ^ 32 }
{}

/// Bytes in two pieces give the register that they give at once.
pub fn pieces_are_fed_one_after_another()
    ensures { (register : ℕ) (before piece : List ℕ) →
        fed (fed register before) piece ≡ fed register (before ++ piece) }
{}

/// The definition gives the sums that others list.
pub fn known_sums()
    ensures { KnownSums }
{}
