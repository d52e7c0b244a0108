//! The limits of the library (own, except where a standard is named).

/// The most partitions that a cartridge may have. It has at least one.
pub const MAX_PARTITIONS: u8 = 4;

/// The least capacity of a partition, in bytes.
pub const MIN_CAPACITY: u64 = 4_096;

/// The greatest capacity of a partition, in bytes.
pub const MAX_CAPACITY: u64 = 1_099_511_627_776;

/// The length of the longest block, in bytes. The shortest block has one byte.
pub const MAX_BLOCK: u32 = 1_048_576;

/// How many bytes of a partition's capacity each object takes, in addition to the bytes of a block. A filemark takes
/// only these.
pub const OBJECT_COST: u64 = 16;

/// The most objects that a partition may have.
pub const MAX_OBJECTS: u32 = 16_000_000;

/// The greatest length of a side (the bytes of one file), in bytes, including the closed gate at its end.
pub const MAX_SIDE: u64 = 1_099_511_627_776;

/// The length of the longest body of a frame, in bytes. The shortest body has one byte.
pub const MAX_BODY: u32 = 8_388_608;

/// The length of the longest body of a frame in a copy, in bytes.
pub const COPY_BODY: usize = 4_194_304;

/// The most changes that a drive's buffer holds.
pub const BUFFER_RECORDS: usize = 256;

/// The most bytes of blocks that a drive's buffer holds.
pub const BUFFER_BYTES: usize = 4_194_304;

/// The number of places in a drive's ring. At most this many changes may be sent before the halves are joined and split
/// again, which allocates memory for more changes.
pub const RING_RECORDS: usize = 256;

/// The least number of saves for which memory is reserved in a store that was just made or opened. These saves allocate
/// no memory.
pub const RESERVED_SAVES: usize = 256;

/// How many drives a library may have.
pub const DRIVES: u8 = 16;

/// How many slots a library has.
pub const SLOTS: u16 = 256;

/// The element address of the first slot. Drives have the addresses from 1 on.
pub const FIRST_SLOT: u16 = 1_001;

/// How many nexuses a drive has, one for each of its hosts.
pub const NEXUSES: u8 = 64;

/// The most bytes that a barcode may have. It has at least one.
pub const MAX_BARCODE: usize = 16;

/// The length of the longest script, in bytes.
pub const SCRIPT_BYTES: u64 = 2_147_483_648;

/// The most calls of `read` that are made for one script.
pub const SCRIPT_READS: u64 = 4_294_967_296;

/// The length of the longest line of a script, in bytes, not counting its line feed.
pub const LINE_BYTES: usize = 2_200_000;
