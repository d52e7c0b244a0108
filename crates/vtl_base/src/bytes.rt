//! Bytes that a contract sees as a list.
ghost use Rattle.std.specs.Prelude.{◌≡◌, ◌==◌, ◌<◌, ◌≤◌, ◌^◌, [], length, take, IfOk, IsOk};
ghost use Rattle.vtl_base.specs.declared.bytes.TheConstants.{INLINE_BYTES};

use crate::faults::NoMemory;
use smallvec::SmallVec;
use std::alloc::Global;
use std::marker::Model;
use std::mem;

/// The most bytes that fit into a `Bytes` itself; a copy of so few allocates nothing. This is enough for a command
/// block of any known length, sense data, the parameter list of PERSISTENT RESERVE OUT, and the data of READ POSITION
/// (own).
pub const INLINE_BYTES: usize = 24;

/// Bytes, such as a block, a command block or data. A contract sees them as a list, whatever their form in memory.
#[derive(Drop)]
pub struct Bytes {
    buffer: SmallVec<u8, INLINE_BYTES>,
}

impl Model for Bytes {
    ghost use Rattle.std.specs.Prelude.{ℕ, List};

    ghost Value = { List ℕ };

    ghost view = { λ b. b.buffer.items };
}

impl Bytes {
    /// Makes an empty `Bytes`, without allocating.
    pub fn new(alloc: Global) -> Self
        ensures { result ≡ [] }
    {
        Bytes {
            buffer: SmallVec::new(alloc),
        }
    }

    /// Makes a `Bytes` of the bytes in `buffer`, without allocating.
    pub fn from_vec(buffer: Vec<u8>) -> Self
        ensures { result ≡ buffer.items }
    {
        Bytes {
            buffer: SmallVec::from_vec(buffer),
        }
    }

    /// Makes a `Bytes` with a copy of `bytes`. A copy of at most 24 bytes allocates nothing; for a longer one,
    /// `NoMemory` is returned if memory runs out.
    pub fn from_slice(alloc: Global, bytes: &[u8]) -> Result<Self, NoMemory>
        ensures copy { IfOk result (λ b. b ≡ bytes.now) }
        ensures few { length bytes.now ≤ INLINE_BYTES → IsOk result }
    {
        match SmallVec::from_slice(alloc, bytes) {
            Ok(buffer) => Ok(Bytes { buffer }),
            Err(_) => Err(NoMemory),
        }
    }

    /// The bytes, as a slice.
    pub fn as_slice(&self) -> &[u8]
        ensures { result.now ≡ self.now }
    {
        self.buffer.as_slice()
    }

    /// How many bytes there are.
    pub fn len(&self) -> usize
        ensures len { result ≡ length self.now }
        ensures bound { result < 2 ^ 63 }
    {
        self.buffer.as_slice().len()
    }

    /// Whether there are no bytes.
    pub fn is_empty(&self) -> bool
        ensures { result ≡ (length self.now == 0) }
    {
        self.buffer.is_empty()
    }

    /// Keeps the first `count` bytes and removes the others. If there are no more than `count`, all of them stay.
    pub fn truncate(&mut self, count: usize)
        ensures { self.new ≡ take count self.old }
    {
        self.buffer.truncate(count);
    }

    /// Moves all bytes into the result, and leaves none here. It allocates nothing, and copies at most 24 bytes.
    pub fn take(&mut self) -> Self
        ensures taken { result ≡ self.old }
        ensures left { self.new ≡ [] }
    {
        let none = Bytes::new(*self.buffer.allocator());
        mem::replace(self, none)
    }
}
