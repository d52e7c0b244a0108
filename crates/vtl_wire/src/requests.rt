//! The requests of a front end.
ghost use Rattle.std.specs.Prelude.{◌↔◌, IsTrue};
ghost use Rattle.vtl_wire.specs.Requests.{FitsRequest};

use crate::frames::{MOST_CDB, MOST_DATA};
use vtl_base::{Bytes, DriveNo, Nexus};

/// A request of a front end. Its tag may be any number. The answer has the same tag.
#[derive(Drop)]
pub enum Request {
    /// A command from a host to a drive: a command block of at most 16 bytes, and with it at most 1,100,000 bytes of
    /// data.
    Command {
        host: Nexus,
        drive: DriveNo,
        cdb: Bytes,
        sent: Bytes,
        tag: u32,
    },
    /// Moves the cartridge at the element address `from` to the element address `to`. Both addresses may be any
    /// numbers.
    Move {
        from: u32,
        to: u32,
        tag: u32,
    },
    /// Asks which cartridge is at which element address.
    Inventory {
        tag: u32,
    },
}

impl Request {
    /// Whether a frame can hold the request. A command fits if its command block has at most 16 bytes and its data at
    /// most 1,100,000 bytes. A move or an inventory always fits.
    pub fn fits_frame(&self) -> bool
        ensures { IsTrue result ↔ FitsRequest self.now }
    {
        match self {
            Request::Command { cdb, sent, .. } => {
                cdb.len() <= MOST_CDB && sent.len() <= MOST_DATA as usize
            }
            Request::Move { .. } | Request::Inventory { .. } => true,
        }
    }
}
