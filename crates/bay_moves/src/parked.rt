//! A closed cartridge: in a slot, or on its way.
ghost use Rattle.std.specs.Prelude.{◌≡◌, false};
ghost use Rattle.tape_buffer.specs.Moves.{IsHere};
ghost use Rattle.tape_buffer.specs.State.{closed_buffer, state_of};
ghost use Rattle.tape_buffer.specs.declared.holding.Holding.TheVariants as Holdings;
ghost use Rattle.bay_moves.specs.Bays.{KeepsCartridge};

use cartridge::Shelved;
use std::alloc::Global;
use std::marker::Model;
use tape_buffer::Buffered;
use tape_disk::Disk;

/// A closed cartridge, in the form in which a slot holds it and a drive loads it. A contract sees its medium, which is
/// parked (closed). The type's invariant is that of a cartridge in a drive. A cartridge that was never opened is
/// unread. What a crash may leave of it is known once a drive has opened it, or while a crash leaves only what reads
/// return.
#[derive(Drop)]
pub struct Parked<D: Disk> {
    medium: Buffered<D>,
}

impl<D: Disk> Model for Parked<D> {
    ghost use Rattle.std.specs.Prelude.{◌≡◌, false};
    ghost use Rattle.tape_buffer.specs.State.{BufferState, state_of};
    ghost use Rattle.bay_moves.specs.Bays.{KeepsCartridge};

    ghost Value = { BufferState D };

    ghost view = { λ p. p.medium };

    ghost invariant = { λ p. ((state_of D.state p.medium).awake ≡ false) × KeepsCartridge D.state p.medium };
}

impl<D: Disk> Parked<D> {
    /// Makes a closed cartridge of `shelved`. A cartridge that was never opened is unread: nothing is known of its
    /// contents until a drive opens it.
    pub fn of(alloc: Global, shelved: Shelved<D>) -> Parked<D>
        ensures { result ≡ closed_buffer shelved }
    {
        Parked::of_medium(Buffered::parked(alloc, shelved))
    }

    /// Makes a closed cartridge of a medium, which must be parked.
    pub fn of_medium(medium: Buffered<D>) -> Parked<D>
        requires parked { (state_of D.state medium).awake ≡ false }
        requires hand { IsHere medium.held }
        ensures { result ≡ medium }
    {
        medium.known();
        Parked { medium }
    }

    /// Returns the medium, which is parked.
    pub fn into_medium(self) -> Buffered<D>
        ensures same { result ≡ self }
        ensures parked { (state_of D.state result).awake ≡ false }
        ensures keeps { KeepsCartridge D.state result }
    {
        self.medium
    }

    /// Establishes, for proofs, the type's invariant. The call does nothing else.
    pub fn known(&self)
        ensures parked { (state_of D.state self.now).awake ≡ false }
        ensures keeps { KeepsCartridge D.state self.now }
    {
        // Read for the proof: the facts are the type's invariant.
        let _ = &self.medium;
    }

    /// Returns the closed cartridge alone: its two disks, and what proofs know of them.
    pub fn into_shelved(self) -> Shelved<D>
        ensures { self.held ≡ Holdings.Closed result }
    {
        self.medium.into_shelved()
    }

    /// The medium, for reading.
    pub fn medium(&self) -> &Buffered<D>
        ensures same { result.now ≡ self.now }
        ensures hand { IsHere self.now.held }
    {
        &self.medium
    }
}
