//! The sides of a cartridge `T00001L6` of one partition of 4,096 bytes, byte by byte.

/// The first side: the block `hello` and a filemark after it, and then the block `x` at its beginning.
pub const BEFORE: &'static [u8; 87] = b"\xa5VTLCART1\0\x01T00001L6        \0\0\0\0\0\0\x10\0\
    \xa5\0\0\0\x0f\x01\0\0\0\0\0\0\0\0\x05hello\
    \xa5\0\0\0\x0a\x02\0\0\0\0\x01\0\0\0\x01\
    \xa5\0\0\0\x0b\x01\0\0\0\0\0\0\0\0\x01x\
    \0";

/// The same with an open pair gate.
pub const PAIRED: &'static [u8; 87] = b"\xa5VTLCART1\xa5\x01T00001L6        \0\0\0\0\0\0\x10\0\
    \xa5\0\0\0\x0f\x01\0\0\0\0\0\0\0\0\x05hello\
    \xa5\0\0\0\x0a\x02\0\0\0\0\x01\0\0\0\x01\
    \xa5\0\0\0\x0b\x01\0\0\0\0\0\0\0\0\x01x\
    \0";

/// The second side, after it was reclaimed. Its gates are at 47 and 63.
pub const ONCE: &'static [u8; 64] = b"\xa5VTLCART1\0\x81T00001L6        \0\0\0\0\0\0\x10\0\
    \0\0\0\0\0\0\0\x01\0\0\0\x01\
    \xa5\0\0\0\x0b\x01\0\0\0\0\0\0\0\0\x01x\
    \0";

/// The first side, after it was reclaimed again.
pub const TWICE: &'static [u8; 64] = b"\xa5VTLCART1\xa5\x81T00001L6        \0\0\0\0\0\0\x10\0\
    \0\0\0\0\0\0\0\x02\0\0\0\x01\
    \xa5\0\0\0\x0b\x01\0\0\0\0\0\0\0\0\x01x\
    \0";

/// The second side, after it was reclaimed a third time.
pub const THRICE: &'static [u8; 64] = b"\xa5VTLCART1\0\x81T00001L6        \0\0\0\0\0\0\x10\0\
    \0\0\0\0\0\0\0\x03\0\0\0\x01\
    \xa5\0\0\0\x0b\x01\0\0\0\0\0\0\0\0\x01x\
    \0";

/// The second disk between the passes that write it.
pub const PREPARED: &'static [u8; 10] = b"\0VTLCART1\0";

/// The second side, reclaimed once, and then the block `y` after `x`.
pub const ONCE_AND_ON: &'static [u8; 80] = b"\xa5VTLCART1\0\x81T00001L6        \0\0\0\0\0\0\x10\0\
    \0\0\0\0\0\0\0\x01\0\0\0\x01\
    \xa5\0\0\0\x0b\x01\0\0\0\0\0\0\0\0\x01x\
    \xa5\0\0\0\x0b\x01\0\0\0\0\x01\0\0\0\x01y\
    \0";

/// The same with a closed gate.
pub const ONCE_CLOSED: &'static [u8; 80] = b"\0VTLCART1\0\x81T00001L6        \0\0\0\0\0\0\x10\0\
    \0\0\0\0\0\0\0\x01\0\0\0\x01\
    \xa5\0\0\0\x0b\x01\0\0\0\0\0\0\0\0\x01x\
    \xa5\0\0\0\x0b\x01\0\0\0\0\x01\0\0\0\x01y\
    \0";

/// The first side, reclaimed again: `x` and `y` in one frame, and then two filemarks after them.
pub const TWICE_AND_ON: &'static [u8; 90] =
    b"\xa5VTLCART1\xa5\x81T00001L6        \0\0\0\0\0\0\x10\0\
    \0\0\0\0\0\0\0\x02\0\0\0\x01\
    \xa5\0\0\0\x16\x01\0\0\0\0\0\0\0\0\x01x\x01\0\0\0\0\x01\0\0\0\x01y\
    \xa5\0\0\0\x0a\x02\0\0\0\0\x02\0\0\0\x02\
    \0";
