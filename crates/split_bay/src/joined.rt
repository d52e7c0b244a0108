//! Steps that need both ends of a ring.
ghost use Rattle.std.specs.Prelude.{◌≡◌, ◌≤◌, ◌↔◌, ◌++◌, [], ◌∷◌, IsTrue};
ghost use Rattle.vtl_base.specs.declared.limits.TheConstants.{RING_RECORDS};
ghost use Rattle.split_bay.specs.declared.items.Item.TheVariants as Items;
ghost use Rattle.split_bay.specs.Rings.{AreEnds};
ghost use Rattle.split_bay.specs.Spans.{spans_in};

use crate::ends::{Receiving, Rings, Sending};
use crate::items::Item;
use crate::noted::NotedBeginning;

// Whether these are the two ends of one drive's ring, and the same number of spans, modulo 2^64, began in both.
pub(crate) fn are_ends<R: Rings>(sending: &Sending<R>, receiving: &Receiving<R>) -> bool
    ensures { IsTrue result ↔ AreEnds sending.now receiving.now.number receiving.now.received }
{
    sending.number == receiving.number && sending.spans == receiving.spans
}

// Looks at both ends: what waits is all that was sent and not received, and no span begins in it.
pub(crate) fn look_both<R: Rings>(sending: &mut Sending<R>, receiving: &mut Receiving<R>)
    requires { AreEnds sending.old receiving.old.number receiving.old.received }
    ensures sending { sending.new ≡ sending.old }
    ensures same { receiving.new ≡ record receiving.old { waiting = receiving.new.waiting } }
    ensures fifo { receiving.new.received ++ receiving.new.waiting ≡ sending.new.sent }
    ensures changes { spans_in receiving.new.waiting ≡ 0 }
{
    sending.producer.slots_beside(&mut receiving.consumer);
    receiving.consumer.slots_beside(&mut sending.producer);
}

// Begins a span. All that was sent is received.
pub(crate) fn begin_span<R: Rings>(
    sending: &mut Sending<R>,
    receiving: &mut Receiving<R>,
    noted: NotedBeginning,
    left: usize,
    bytes: u64,
    room: u64,
)
    requires number { sending.old.number ≡ receiving.old.number }
    requires level { receiving.old.received ≡ sending.old.sent }
    requires limit { left ≤ RING_RECORDS }
    requires left { noted.begin.left ≡ left }
    requires bytes { noted.begin.bytes ≡ bytes }
    requires room { noted.begin.room ≡ room }
    ensures sending { sending.new ≡ record sending.old {
      sent = sending.old.sent ++ Items.Begins noted ∷ [];
    } }
    ensures number { receiving.new.number ≡ receiving.old.number }
    ensures received { receiving.new.received ≡ receiving.old.received ++ Items.Begins noted ∷ [] }
{
    sending.producer.slots_beside(&mut receiving.consumer);
    sending.producer.push_reserved(Item::Begins(noted));
    receiving.consumer.slots_beside(&mut sending.producer);
    let _ = receiving.consumer.pop_known();
    sending.producer.slots_beside(&mut receiving.consumer);
    sending.spans = sending.spans.wrapping_add(1);
    receiving.spans = receiving.spans.wrapping_add(1);
    sending.left = left;
    sending.bytes = bytes;
    sending.room = room;
}
