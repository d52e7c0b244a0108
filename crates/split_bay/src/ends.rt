//! The two ends of the ring through which changes go from the hosts' half of a bay to the disk's.
ghost use Rattle.std.specs.Prelude.{◌≡◌, ◌++◌, [], ◌∷◌, IsTrue, None};
ghost use mathlib.Core.List.{IsPrefix};
ghost use Rattle.rtrb.specs.Ring.{known_items, producer_capacity, received, sent};
ghost use Rattle.volume_core.specs.Medium.{block_bytes};
ghost use Rattle.volume_core.specs.Volume.{refusal_of};
ghost use Rattle.vtl_base.specs.declared.limits.TheConstants.{RING_RECORDS};
ghost use Rattle.split_bay.specs.declared.items.Item.TheVariants as Items;
ghost use Rattle.split_bay.specs.Rings.{ReceivesFrom, SendsInto};
ghost use Rattle.split_bay.specs.Spans.{IsChangeFirst, KeepsLimits, NoChangeFirst, TakesMore, span_of, volume_seen};

use crate::items::Item;
use crate::protocol::InSpans;
use rtrb::{Consumer, Producer};
use std::alloc::Global;
use std::marker::{Brand, Model, PhantomData};
use volume_core::Change;
use vtl_base::DriveNo;
use vtl_base::layout::FRAMED_HEAD;

/// The ring of each drive, by the drive's number. One implementation names the rings of all drives, so all bays have
/// the same type.
pub trait Rings {
    ghost use Rattle.std.specs.Prelude.{ℕ, Option};
    ghost use Rattle.split_bay.specs.Rings.{Sender};

    /// The ring of the drive with this number, named by its sending end; None where there is no such ring.
    ghost ring: { ℕ → Option Sender };
}

impl Rings for Brand {
    ghost use Rattle.std.specs.Prelude.{None};

    ghost ring = { λ number. None };
}

/// The hosts' end of a drive's ring.
#[derive(Drop)]
pub struct Sending<R: Rings> {
    pub(crate) number: DriveNo,
    pub(crate) producer: Producer<Item, Global, InSpans>,
    // How many spans began, modulo 2^64.
    pub(crate) spans: u64,
    // How many records and bytes of blocks may still be sent in this span, and how much room is left.
    pub(crate) left: usize,
    pub(crate) bytes: u64,
    pub(crate) room: u64,
    of: PhantomData<R>,
}

impl<R: Rings> Model for Sending<R> {
    ghost use Rattle.std.specs.Prelude.{◌≡◌, ◌≤◌};
    ghost use Rattle.rtrb.specs.Ring.{known_free, producer_capacity, sent};
    ghost use Rattle.vtl_base.specs.declared.limits.TheConstants.{RING_RECORDS};
    ghost use Rattle.split_bay.specs.Rings.{IsCounted, SendingState, SendsInto};

    ghost Value = { SendingState };

    ghost view = { λ s. record { number = s.number; sent = sent s.producer } };

    ghost invariant = { λ s. SendsInto (R.ring s.number) s.producer
        × (producer_capacity s.producer ≡ RING_RECORDS)
        × (s.left ≤ known_free s.producer)
        × IsCounted (sent s.producer) s.spans s.left s.bytes s.room };
}

/// The disk's end of a drive's ring.
#[derive(Drop)]
pub struct Receiving<R: Rings> {
    pub(crate) number: DriveNo,
    pub(crate) consumer: Consumer<Item, Global, InSpans>,
    // How many spans began, modulo 2^64.
    pub(crate) spans: u64,
    of: PhantomData<R>,
}

impl<R: Rings> Model for Receiving<R> {
    ghost use Rattle.std.specs.Prelude.{◌≡◌, ◌%◌, ◌^◌};
    ghost use Rattle.rtrb.specs.Ring.{known_items, received};
    ghost use Rattle.split_bay.specs.Rings.{ReceivesFrom, ReceivingState};
    ghost use Rattle.split_bay.specs.Spans.{KeepsLimits, span_of, spans_in};

    ghost Value = { ReceivingState };

    ghost view = { λ r. record {
      number = r.number;
      received = received r.consumer;
      waiting = known_items r.consumer;
    } };

    ghost invariant = { λ r. ReceivesFrom (R.ring r.number) r.consumer
        × KeepsLimits (span_of (received r.consumer))
        × (r.spans ≡ spans_in (received r.consumer) % 2 ^ 64) };
}

impl<R: Rings> Sending<R> {
    /// Makes the hosts' end of the ring of drive `number`. `producer` must be the producer of that ring, with 256
    /// places, and nothing may have been sent by it yet.
    pub fn new(number: DriveNo, producer: Producer<Item, Global, InSpans>) -> Self
        requires ring { SendsInto (R.ring number) producer }
        requires places { producer_capacity producer ≡ RING_RECORDS }
        requires none { sent producer ≡ [] }
        ensures { result ≡ record { number = number; sent = [] } }
    {
        Sending {
            number,
            producer,
            spans: 0,
            left: 0,
            bytes: 0,
            room: 0,
            of: PhantomData,
        }
    }

    /// Establishes, for proofs, that what was sent keeps the limits of its span.
    pub(crate) fn known(&self)
        ensures { KeepsLimits (span_of self.now.sent) }
    {
        // Looked at for the proof's sake: the fact is the type's.
        let _ = &self.producer;
    }

    /// Sends a change, within the limits of its span. It allocates no memory, and waits for nothing.
    pub(crate) fn send(&mut self, change: Change)
        requires applies { refusal_of (volume_seen (span_of self.old.sent)) change ≡ None }
        requires within { TakesMore (span_of self.old.sent) (block_bytes change) }
        ensures { self.new ≡ record self.old { sent = self.old.sent ++ Items.Sent change ∷ [] } }
    {
        let size = change.frame_size();
        self.left -= 1;
        self.bytes -= size - FRAMED_HEAD;
        self.room -= size;
        self.producer.push_reserved(Item::Sent(change));
    }
}

impl<R: Rings> Receiving<R> {
    /// Makes the disk's end of the ring of drive `number`. `consumer` must be the consumer of that ring, and nothing
    /// may have been received by it yet.
    pub fn new(number: DriveNo, consumer: Consumer<Item, Global, InSpans>) -> Self
        requires ring { ReceivesFrom (R.ring number) consumer }
        requires none { received consumer ≡ [] }
        ensures { result ≡ record { number = number; received = []; waiting = known_items consumer } }
    {
        Receiving {
            number,
            consumer,
            spans: 0,
            of: PhantomData,
        }
    }

    /// Establishes, for proofs, that what was received keeps the limits of its span.
    pub(crate) fn known(&self)
        ensures { KeepsLimits (span_of self.now.received) }
    {
        // Looked at for the proof's sake: the fact is the type's.
        let _ = &self.consumer;
    }

    /// Looks how many items wait in the ring. These are then known to wait.
    pub(crate) fn look(&mut self)
        ensures same { self.new ≡ record self.old { waiting = self.new.waiting } }
        ensures more { IsPrefix self.old.waiting self.new.waiting }
    {
        let _ = self.consumer.slots();
    }

    /// Whether a change is known to wait as the first item.
    pub(crate) fn has_change(&self) -> bool
        ensures yes { IsTrue result → IsChangeFirst self.now.waiting }
        ensures no { (IsTrue result → ⊥) → NoChangeFirst self.now.waiting }
    {
        if self.consumer.cached_slots() == 0 {
            return false;
        }
        match self.consumer.peek_known() {
            Item::Sent(_) => true,
            Item::Begins(_) => false,
        }
    }

    /// Receives the change that waits as the first item.
    pub(crate) fn receive(&mut self) -> Change
        requires { IsChangeFirst self.old.waiting }
        ensures number { self.new.number ≡ self.old.number }
        ensures received { self.new.received ≡ self.old.received ++ Items.Sent result ∷ [] }
        ensures waiting { self.old.waiting ≡ Items.Sent result ∷ self.new.waiting }
        ensures within { KeepsLimits (span_of self.new.received) }
    {
        match self.consumer.pop_known() {
            Item::Sent(change) => change,
            Item::Begins(_) => unreachable!(),
        }
    }
}
