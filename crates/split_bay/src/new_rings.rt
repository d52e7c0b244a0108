//! A ring that was just made, for a drive that is about to be split into halves.
ghost use Rattle.std.specs.Prelude.{◌≡◌, [], Some};

use crate::ends::{Receiving, Rings, Sending};
use crate::items::Item;
use crate::protocol::InSpans;
use crate::wholes::Ends;
use rtrb::{Consumer, Producer, RingBuffer};
use std::alloc::Global;
use std::marker::Model;
use vtl_base::limits::RING_RECORDS;
use vtl_base::{DriveNo, NoMemory};

/// A ring of 256 places into which nothing was sent yet. Contracts see a ring as its sending end.
#[derive(Drop)]
pub struct NewRing {
    producer: Producer<Item, Global, InSpans>,
    consumer: Consumer<Item, Global, InSpans>,
}

impl Model for NewRing {
    ghost use Rattle.std.specs.Prelude.{◌≡◌, []};
    ghost use Rattle.rtrb.specs.Ring.{IsPair, producer_capacity, received, sent};
    ghost use Rattle.vtl_base.specs.declared.limits.TheConstants.{RING_RECORDS};
    ghost use Rattle.split_bay.specs.Rings.{Sender};

    ghost Value = { Sender };

    ghost view = { λ r. r.producer };

    ghost invariant = { λ r. IsPair r.producer r.consumer × (producer_capacity r.producer ≡ RING_RECORDS)
        × (sent r.producer ≡ []) × (received r.consumer ≡ []) };
}

impl NewRing {
    /// Makes a ring, and allocates memory for its 256 places. Returns `NoMemory` if memory runs out.
    pub fn new(alloc: Global) -> Result<NewRing, NoMemory> {
        let (producer, consumer) = RingBuffer::with_protocol::<Global, InSpans>(
            alloc,
            RING_RECORDS,
        )?;
        Ok(NewRing { producer, consumer })
    }

    /// Splits the ring into its two ends, for the drive `number`. `R` must name this ring as the ring of that drive.
    pub fn into_ends<R: Rings>(self, number: DriveNo) -> Ends<R>
        requires { R.ring number ≡ Some self }
        ensures { result ≡ record { number = number; sent = [] } }
    {
        let NewRing { producer, consumer } = self;
        Ends::new(
            Sending::new(number, producer),
            Receiving::new(number, consumer),
        )
    }
}
