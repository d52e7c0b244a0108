//! Statuses and replies.
ghost use Rattle.std.specs.Prelude.{◌≡◌};
ghost use Rattle.scsi_sense.specs.Replies.{check_with, conflict, good_with, status_code};

use crate::sense_data::Sense;
use std::alloc::Global;
use vtl_base::Bytes;

/// How a command ended (SAM-5, status codes).
#[derive(Clone, Copy, PartialEq, Eq, Debug)]
pub enum Status {
    Good = 0x00,
    Check = 0x02,
    Conflict = 0x18,
}

/// The reply to a host. `bytes` are the data that the host gets. `sense` is None unless the status is `Check`.
#[derive(Drop)]
pub struct Reply {
    pub status: Status,
    pub sense: Option<Sense>,
    pub bytes: Bytes,
}

impl Status {
    /// The byte of the status (SAM-5, status codes).
    pub fn code(self) -> u8
        ensures { result ≡ status_code self }
    {
        self as u8
    }
}

impl Reply {
    /// A reply with the status GOOD and these bytes.
    pub fn good(bytes: Bytes) -> Self
        ensures { result ≡ good_with bytes }
    {
        Reply {
            status: Status::Good,
            sense: None,
            bytes,
        }
    }

    /// A reply with the status CHECK CONDITION, this sense data and these bytes.
    pub fn check(sense: Sense, bytes: Bytes) -> Self
        ensures { result ≡ check_with sense bytes }
    {
        Reply {
            status: Status::Check,
            sense: Some(sense),
            bytes,
        }
    }

    /// A reply with the status RESERVATION CONFLICT and no bytes. This call allocates nothing.
    pub fn conflict(alloc: Global) -> Self
        ensures { result ≡ conflict }
    {
        Reply {
            status: Status::Conflict,
            sense: None,
            bytes: Bytes::new(alloc),
        }
    }
}
