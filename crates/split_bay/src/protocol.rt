//! What is true of each item in a drive's ring.
use crate::items::Item;
use rtrb::Protocol;

/// The protocol of a drive's ring: an item may be sent only where its span, with that item, stays within the limits of
/// the span. A span is all that is sent from one splitting of the bay into halves to the next. The limits say how many
/// changes, how many bytes of blocks and how many bytes of frames may be sent, and that each change applies after those
/// before it.
#[derive(Clone, Copy)]
pub struct InSpans;

impl Protocol<Item> for InSpans {
    ghost use Rattle.split_bay.specs.Spans.{MayFollow};

    ghost allows = { MayFollow };
}
