//! What the header of an answer says of the answer.
ghost use Rattle.std.specs.Prelude.{◌≡◌, IfSome, IfNone, IsTrue, ◌↔◌};
ghost use Rattle.scsi_sense.specs.declared.replies.Status.{Status};
ghost use Rattle.scsi_sense.specs.declared.sense_data.Sense.{Sense};
ghost use Rattle.scsi_sense.specs.Replies.{status_code};
ghost use Rattle.vtl_wire.specs.declared.answer_heads.AnswerHead.{AnswerHead};
ghost use Rattle.vtl_wire.specs.Inner.Answered.{EntriesSay, GoesToHost, HeadSays, IsReplyHeader};

use crate::frames::{ENTRY_BYTES, FrameKind, MOST_DATA, SENSE_BYTES};
use crate::headers::Header;
use scsi_sense::Status;
use vtl_base::Nexus;

// The part of a reply that its header has. The host is None where the reply answers a move.
#[derive(Clone, Copy)]
pub(crate) struct ReplyHead {
    pub(crate) host: Option<Nexus>,
    pub(crate) status: Status,
    pub(crate) tag: u32,
}

// The part of an answer that its header has.
#[derive(Clone, Copy)]
pub(crate) enum AnswerHead {
    Reply(ReplyHead),
    Inventory { tag: u32 },
}

// The status with this byte, if there is one.
fn status_with(code: u8) -> Option<Status>
    ensures found { IfSome result (λ status. code ≡ status_code status) }
    ensures none { IfNone result ((status : Status) → code ≡ status_code status → ⊥) }
{
    match code {
        0x00 => Some(Status::Good),
        0x02 => Some(Status::Check),
        0x18 => Some(Status::Conflict),
        _ => None,
    }
}

// The status of a reply's header, where the lengths are within their limits.
fn reply_status(header: Header) -> Option<Status>
    ensures found { IfSome result (IsReplyHeader header) }
    ensures none { IfNone result ((status : Status) → IsReplyHeader header status → ⊥) }
{
    let status = status_with(header.detail)?;
    if header.payload > MOST_DATA {
        return None;
    }
    if header.front == 0 {
        return Some(status);
    }
    if header.front as usize == SENSE_BYTES && status == Status::Check {
        return Some(status);
    }
    None
}

// What this header says of its reply, which goes to `host`, or answers a move where `host` is None. The result is None
// where no reply has this header.
fn reply_head(header: Header, host: Option<Nexus>) -> Option<AnswerHead>
    requires { GoesToHost header.kind header.host host }
    ensures found { IfSome result (HeadSays header) }
    ensures none { IfNone result ((status : Status) → IsReplyHeader header status → ⊥) }
{
    let status = reply_status(header)?;
    let tag = header.tag;
    Some(AnswerHead::Reply(ReplyHead { host, status, tag }))
}

// Whether this is the header of an inventory's answer.
fn has_entries(header: Header) -> bool
    ensures { IsTrue result ↔ EntriesSay header header.tag }
{
    header.kind == FrameKind::Inventory
        && header.host == 0
        && header.detail == 0
        && header.front == 0
        && header.payload <= MOST_DATA
        && header.payload as usize % ENTRY_BYTES == 0
}

// What this header says of its answer, if an answer may have this header.
pub(crate) fn answer_head(header: Header) -> Option<AnswerHead>
    ensures found { IfSome result (HeadSays header) }
    ensures none { IfNone result ((head : AnswerHead) → HeadSays header head → ⊥) }
{
    match header.kind {
        FrameKind::Command => {
            let host = Nexus::new(header.host)?;
            reply_head(header, Some(host))
        }
        FrameKind::Move if header.host == 0 => reply_head(header, None),
        FrameKind::Inventory if has_entries(header) => {
            Some(AnswerHead::Inventory { tag: header.tag })
        }
        FrameKind::Move | FrameKind::Inventory => None,
    }
}
