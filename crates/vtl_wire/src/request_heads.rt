//! What the header of a request says of the request.
ghost use Rattle.std.specs.Prelude.{◌≡◌, ◌++◌, length, Some};
ghost use Rattle.std.specs.Int.{to_be_bytes, w32};
ghost use Rattle.vtl_wire.specs.declared.frames.TheConstants.{MOVE_BYTES};
ghost use Rattle.vtl_wire.specs.Requests.{IsRequest, frame_of_request};
ghost use Rattle.vtl_wire.specs.Inner.Headers.{frame_with};
ghost use Rattle.vtl_wire.specs.Inner.Requested.{command_head, is_plain, request_head};

use crate::frames::{FrameKind, MOST_CDB, MOST_DATA, MOVE_BYTES};
use crate::headers::Header;
use crate::parts::Parts;
use crate::requests::Request;
use byteorder::{BigEndian, ByteOrder};
use vtl_base::{DriveNo, Nexus};

// The part of a request that its header has.
#[derive(Clone, Copy)]
pub(crate) enum RequestHead {
    Command {
        host: Nexus,
        drive: DriveNo,
        tag: u32,
    },
    Move {
        tag: u32,
    },
    Inventory {
        tag: u32,
    },
}

// The command of this header, if host, drive and lengths are within their limits.
fn command_head(header: Header) -> Option<RequestHead>
    ensures { result ≡ command_head header }
{
    let host = Nexus::new(header.host)?;
    let drive = DriveNo::new(header.detail)?;
    if header.front as usize > MOST_CDB || header.payload > MOST_DATA {
        return None;
    }
    let tag = header.tag;
    Some(RequestHead::Command { host, drive, tag })
}

// Whether the header names no host and no drive, and counts `front` bytes and no data after it.
fn is_plain(header: Header, front: usize) -> bool
    ensures { result ≡ is_plain header front }
{
    header.host == 0 && header.detail == 0 && header.front as usize == front && header.payload == 0
}

// What this header says of its request, if a request may have this header.
pub(crate) fn request_head(header: Header) -> Option<RequestHead>
    ensures { result ≡ request_head header }
{
    let tag = header.tag;
    match header.kind {
        FrameKind::Command => command_head(header),
        FrameKind::Move if is_plain(header, MOVE_BYTES) => Some(RequestHead::Move { tag }),
        FrameKind::Inventory if is_plain(header, 0) => Some(RequestHead::Inventory { tag }),
        FrameKind::Move | FrameKind::Inventory => None,
    }
}

// The two numbers that eight bytes spell.
fn two_numbers(bytes: &[u8]) -> (u32, u32)
    requires { length bytes.now ≡ MOVE_BYTES }
    ensures { to_be_bytes w32 result.0 ++ to_be_bytes w32 result.1 ≡ bytes.now }
{
    let first = BigEndian::read_u32(bytes);
    let second = BigEndian::read_u32(&bytes[4..]);
    (first, second)
}

// The request with this header and these parts.
pub(crate) fn request_in(header: Header, head: RequestHead, parts: Parts) -> Request
    requires head { request_head header ≡ Some head }
    requires front { length parts.front ≡ header.front }
    requires payload { length parts.payload ≡ header.payload }
    ensures frame { frame_of_request result ≡ frame_with header parts.front parts.payload }
    ensures valid { IsRequest result }
{
    match head {
        RequestHead::Command { host, drive, tag } => Request::Command {
            host,
            drive,
            cdb: parts.front,
            sent: parts.payload,
            tag,
        },
        RequestHead::Move { tag } => {
            let (from, to) = two_numbers(parts.front.as_slice());
            Request::Move { from, to, tag }
        }
        RequestHead::Inventory { tag } => Request::Inventory { tag },
    }
}
