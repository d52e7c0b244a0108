//! A cartridge's two sides, byte by byte.

/// The first side: a block of 5 bytes and a filemark, and then a block of one byte at its beginning.
pub const BEFORE: &'static [u8; 87] = b"\xa5VTLCART1\0\x01T00001L6        \0\0\0\0\0\0\x10\0\
    \xa5\0\0\0\x0f\x01\0\0\0\0\0\0\0\0\x05hello\
    \xa5\0\0\0\x0a\x02\0\0\0\0\x01\0\0\0\x01\
    \xa5\0\0\0\x0b\x01\0\0\0\0\0\0\0\0\x01\x78\0";

/// The second side, after it was reclaimed.
pub const ONCE: &'static [u8; 64] =
    b"\xa5VTLCART1\0\x81T00001L6        \0\0\0\0\0\0\x10\0\0\0\0\0\0\0\0\x01\0\0\0\x01\
    \xa5\0\0\0\x0b\x01\0\0\0\0\0\0\0\0\x01\x78\0";

/// The first side, after it was reclaimed again.
pub const TWICE: &'static [u8; 64] =
    b"\xa5VTLCART1\xa5\x81T00001L6        \0\0\0\0\0\0\x10\0\0\0\0\0\0\0\0\x02\0\0\0\x01\
    \xa5\0\0\0\x0b\x01\0\0\0\0\0\0\0\0\x01\x78\0";

/// The second side between the passes that write it.
pub const PREPARED: &'static [u8; 10] = b"\0VTLCART1\0";

/// The body of the copy: the spelling of the block of one byte.
pub const BODY: &'static [u8; 11] = b"\x01\0\0\0\0\0\0\0\0\x01\x78";
