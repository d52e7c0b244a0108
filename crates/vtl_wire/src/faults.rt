//! The errors of reading and writing frames.
use std::alloc::{AllocError, AllocFailed};
use thiserror::Error;
use vtl_base::NoMemory;

/// Why a frame was not read, or not written whole.
#[derive(Clone, Copy, PartialEq, Eq, Debug, Error)]
pub enum WireFault {
    /// The frame with the number `frame`, counted from 1 on, is refused: its bytes are not a frame that is allowed
    /// there, the input ends inside it, or the server does not take its request.
    #[error("frame {frame} refused")]
    BadFrame { frame: u64 },
    /// A read failed.
    #[error("read fault")]
    ReadFault,
    /// A write or a flush failed, or no frame can hold the answer. `vtl_hosts` returns it also where a command was left
    /// without an answer.
    #[error("write fault")]
    WriteFault,
    /// Memory ran out, or 2^64 - 1 frames were read.
    #[error("out of memory")]
    NoMemory,
}

impl From<NoMemory> for WireFault {
    ghost use Rattle.std.specs.Prelude.{◌≡◌};
    ghost use Rattle.vtl_wire.specs.declared.faults.WireFault.TheVariants.{NoMemory};

    ghost from_gives = { λ _ e. e ≡ NoMemory };

    fn from(_: NoMemory) -> Self {
        WireFault::NoMemory
    }
}

impl From<AllocError> for WireFault {
    ghost use Rattle.std.specs.Prelude.{◌≡◌};
    ghost use Rattle.vtl_wire.specs.declared.faults.WireFault.TheVariants.{NoMemory};

    ghost from_gives = { λ _ e. e ≡ NoMemory };

    fn from(_: AllocError) -> Self {
        WireFault::NoMemory
    }
}

impl<T: Drop> From<AllocFailed<T>> for WireFault {
    ghost use Rattle.std.specs.Prelude.{◌≡◌};
    ghost use Rattle.vtl_wire.specs.declared.faults.WireFault.TheVariants.{NoMemory};

    ghost from_gives = { λ _ e. e ≡ NoMemory };

    fn from(_: AllocFailed<T>) -> Self {
        WireFault::NoMemory
    }
}
