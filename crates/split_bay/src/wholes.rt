//! A bay whose disks are at hand is made of its halves, and parts into them again.
ghost use Rattle.std.specs.Prelude.{◌≡◌};
ghost use Rattle.split_bay.specs.Halves.{Joins, Parts};
ghost use Rattle.split_bay.specs.Rings.{AreEnds};

use crate::backs::Back;
use crate::ends::{Receiving, Rings, Sending};
use crate::fronts::Front;
use crate::halves::{attach, detach};
use bay_moves::Bay;
use std::marker::Model;
use tape_disk::Disk;

/// Both ends of a drive's ring, while its disks are at hand: all that was sent is received.
#[derive(Drop)]
pub struct Ends<R: Rings> {
    sending: Sending<R>,
    receiving: Receiving<R>,
}

impl<R: Rings> Model for Ends<R> {
    ghost use Rattle.std.specs.Prelude.{◌≡◌};
    ghost use Rattle.split_bay.specs.Rings.{SendingState};

    ghost Value = { SendingState };

    ghost view = { λ e. e.sending };

    ghost invariant = { λ e. (e.receiving.number ≡ e.sending.number) × (e.receiving.received ≡ e.sending.sent) };
}

impl<R: Rings> Ends<R> {
    /// Puts together both ends of a drive's ring. They must belong to the same drive, and all that was sent must have
    /// been received.
    pub fn new(sending: Sending<R>, receiving: Receiving<R>) -> Self
        requires number { receiving.number ≡ sending.number }
        requires level { receiving.received ≡ sending.sent }
        ensures { result ≡ sending }
    {
        Ends { sending, receiving }
    }
}

/// Brings both halves of a bay together, which must fit (`Front::fits`). Returns the bay, and the ends of its ring.
pub fn join<D: Disk, R: Rings>(front: Front<D, R>, back: Back<D, R>) -> (Bay<D>, Ends<R>)
    requires { AreEnds front.sending back.number back.received }
    ensures { Joins D.state front back result.0 result.1 }
{
    let Front {
        mut drive,
        mut sending,
    } = front;
    let Back {
        mut receiving,
        mut disks,
    } = back;
    attach(&mut drive, &mut sending, &mut receiving, &mut disks);
    match disks {
        None => {}
        Some(_other) => unreachable!(),
    }
    (Bay::of_drive(drive), Ends { sending, receiving })
}

/// Parts a bay into its halves again.
pub fn part<D: Disk, R: Rings>(bay: Bay<D>, ends: Ends<R>) -> (Front<D, R>, Back<D, R>)
    ensures { Parts D.state bay ends result.0 result.1 }
{
    let mut drive = bay.into_drive();
    let Ends {
        mut sending,
        mut receiving,
    } = ends;
    let mut disks = None;
    detach(&mut drive, &mut sending, &mut receiving, &mut disks);
    (Front { drive, sending }, Back { receiving, disks })
}
