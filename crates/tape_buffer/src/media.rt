//! The calls of a buffered medium, as a drive makes them.
ghost use Rattle.std.specs.Prelude.{◌≡◌, ◌≢◌, [], true, IfErr, OnErr};
ghost use Rattle.vtl_base.specs.Below.{Advances};
ghost use Rattle.volume_core.specs.declared.media.MediumError.TheVariants as Errors;
ghost use Rattle.volume_core.specs.Medium.{Accepts, Parks, Settles, Turns, Wakes, accept_answer, accepted_by, block_bytes, met_fault, turn_met_fault};
ghost use Rattle.volume_core.specs.Stores.{Stores};
ghost use Rattle.tape_buffer.specs.Aways.{IsTakenOrRefused};
ghost use Rattle.tape_buffer.specs.State.{IsSettledIn, disks_in, state_of};
ghost use Rattle.tape_buffer.specs.Frames.{AcceptsInFrames, IsOneFrame, IsOneFrameIn, ParksInFrames, frames_in};
ghost use Rattle.tape_buffer.specs.Moves.{HonestOn, IsHere, LeavesAlone, LeavesEachAlone, StoresBehind, takes_alone_in, buffer_below};

use crate::adding::{accept_over, has_room_over};
use crate::aways::{accept_away, nothing_away};
use crate::buffered::Buffered;
use crate::closing::{park_over, wake_closed};
use crate::fetching::fetch_over;
use crate::holding::{Holding, hold};
use crate::storing::{settle_over, turn_over};
use std::mem;
use tape_disk::Disk;
use volume_core::{Change, Medium, MediumError, NotAccepted, Turn};
use vtl_base::layout::FRAMED_HEAD;
use vtl_base::{ObjNo, PartNo};

impl<D: Disk> Medium for Buffered<D> {
    ghost use Rattle.std.specs.Prelude.{false};
    ghost use Rattle.vtl_base.specs.Below.{advances_nowhere};
    ghost use Rattle.volume_core.specs.Stores.{stores_nowhere};
    ghost use Rattle.tape_buffer.specs.State.{awake_is_read, state_of};
    ghost use Rattle.tape_buffer.specs.Moves.{takes_alone_in, buffer_below, medium_moves_nowhere, medium_moves_on};

    ghost below = { buffer_below D.state };

    ghost alone = { takes_alone_in };

    // The trait's clauses, and which frames are stored on the way: none while the change may wait beside what is
    // pending, else one. A change that is taken without the disks needs no memory.
    fn accept(&mut self, change: Change) -> Result<(), NotAccepted>
        requires awake { (state_of D.state self.old).awake ≡ true }
        requires hand { takes_alone_in self.old (block_bytes change) ≡ false → IsHere self.old.held }
        ensures answer { Accepts (state_of D.state self.old) change (accept_answer result)
            (state_of D.state self.new) }
        ensures returned { IfErr result (λ refused. refused.change ≡ change) }
        ensures frames { AcceptsInFrames change (accept_answer result) (frames_in self.old) self.old.pending
            (frames_in self.new) self.new.pending }
        ensures stores { Stores (state_of D.state self.old) (accepted_by (accept_answer result) change)
            (state_of D.state self.new) }
        ensures advances { Advances (buffer_below D.state) self.old (accepted_by (accept_answer result) change)
            (met_fault (accept_answer result)) self.new }
        ensures device { takes_alone_in self.old (block_bytes change) ≡ true
            → met_fault (accept_answer result) ≡ false }
        ensures taken { takes_alone_in self.old (block_bytes change) ≡ true
            → IsTakenOrRefused (accept_answer result) }
    {
        let Some(index) = &mut self.catalog else {
            unreachable!()
        };
        match &mut self.held {
            Holding::Open((cartridge, pending)) => accept_over(index, cartridge, pending, change),
            Holding::Away(away) => accept_away(index, away, change),
            Holding::Closed(_) => unreachable!(),
        }
    }

    fn fetch(&mut self, part: PartNo, at: ObjNo, into: &mut Vec<u8>) -> Result<(), MediumError> {
        match &mut self.held {
            Holding::Open((cartridge, pending)) => fetch_over(cartridge, pending, part, at, into),
            Holding::Closed(_) | Holding::Away(_) => unreachable!(),
        }
    }

    // The trait's clauses, and that all that is pending is stored as one frame.
    fn settle(&mut self) -> Result<(), MediumError>
        requires awake { (state_of D.state self.old).awake ≡ true }
        requires hand { IsHere self.old.held }
        ensures answer { Settles (state_of D.state self.old) result (state_of D.state self.new) }
        ensures frame { IsOneFrame result (frames_in self.old) self.old.pending (frames_in self.new) }
        ensures stores { Stores (state_of D.state self.old) [] (state_of D.state self.new) }
        ensures advances { Advances (buffer_below D.state) self.old [] (met_fault result) self.new }
    {
        match &mut self.held {
            Holding::Open((cartridge, pending)) => settle_over(cartridge, pending),
            Holding::Closed(_) | Holding::Away(_) => unreachable!(),
        }
    }

    // The trait's clauses, and that all that is pending is stored as one frame.
    fn flush_turn(&mut self) -> Turn
        requires awake { (state_of D.state self.old).awake ≡ true }
        requires hand { IsHere self.old.held }
        ensures answer { Turns (state_of D.state self.old) result (state_of D.state self.new) }
        ensures frame { IsOneFrameIn result (frames_in self.old) self.old.pending (frames_in self.new) }
        ensures stores { Stores (state_of D.state self.old) [] (state_of D.state self.new) }
        ensures advances { Advances (buffer_below D.state) self.old [] (turn_met_fault result) self.new }
        ensures behind { StoresBehind D.state self.old self.new }
    {
        match &mut self.held {
            Holding::Open((cartridge, pending)) => turn_over(cartridge, pending),
            Holding::Closed(_) | Holding::Away(_) => unreachable!(),
        }
    }

    // The trait's clauses, and one more: all that is pending is stored as one frame, or nothing where the medium has
    // failed.
    fn park(&mut self) -> Result<(), MediumError>
        requires awake { (state_of D.state self.old).awake ≡ true }
        requires hand { IsHere self.old.held }
        ensures answer { Parks (HonestOn D.state (disks_in self.old.held)) (state_of D.state self.old) result
            (state_of D.state self.new) }
        ensures frame { ParksInFrames (state_of D.state self.old).failed result (frames_in self.old)
            self.old.pending (frames_in self.new) }
        ensures stores { OnErr result (Stores (state_of D.state self.old) [] (state_of D.state self.new)) }
        ensures advances { Advances (buffer_below D.state) self.old [] (met_fault result) self.new }
    {
        match mem::replace(&mut self.held, Holding::Away(nothing_away())) {
            Holding::Open((cartridge, mut pending)) => match park_over(cartridge, &mut pending) {
                Ok(shelved) => {
                    hold(&mut self.held, Holding::Closed(shelved));
                    self.catalog = None;
                    Ok(())
                }
                Err(broken) => {
                    hold(&mut self.held, Holding::Open((broken, pending)));
                    Err(MediumError::Device)
                }
            },
            Holding::Closed(_other) => unreachable!(),
            Holding::Away(_away) => unreachable!(),
        }
    }

    /// Opens the medium. A medium that is awake stays as it is; the result is then `Failed` if it has failed, and else
    /// Ok. Nothing is written, whatever the result is. At every moment a crash leaves only what it might have left
    /// before; that holds of an honest disk (one that keeps the promises of a disk) beside a dishonest one too. Where
    /// both disks are honest and neither fails, a crash after the opening of a parked medium leaves just what a read
    /// gives.
    fn wake(&mut self) -> Result<(), MediumError>
        requires hand { IsHere self.old.held }
        ensures answer { Wakes ((buffer_below D.state).honest self.old) (state_of D.state self.old) result
            (state_of D.state self.new) }
        ensures advances { Advances (buffer_below D.state) self.old [] (met_fault result) self.new }
        ensures alone { LeavesAlone D.state self.old self.new }
        ensures each { LeavesEachAlone D.state self.old self.new }
        ensures settled { IfErr result (λ error. error ≢ Errors.Device → IsSettledIn D.state self.new.held) }
    {
        if let Holding::Open((cartridge, _)) = &self.held {
            if cartridge.has_failed() {
                return Err(MediumError::Failed);
            }
            return Ok(());
        }
        match mem::replace(&mut self.held, Holding::Away(nothing_away())) {
            Holding::Closed(shelved) => match wake_closed(self.alloc, shelved) {
                Ok((cartridge, pending, index)) => {
                    hold(&mut self.held, Holding::Open((cartridge, pending)));
                    self.catalog = Some(index);
                    Ok(())
                }
                Err((error, shelved)) => {
                    hold(&mut self.held, Holding::Closed(shelved));
                    Err(error)
                }
            },
            Holding::Open(_other) => unreachable!(),
            Holding::Away(_away) => unreachable!(),
        }
    }

    fn has_room_for(&self, bytes: u32) -> bool {
        match &self.held {
            Holding::Open((cartridge, pending)) => {
                has_room_over(cartridge, pending, FRAMED_HEAD + bytes as u64)
            }
            Holding::Away(away) => FRAMED_HEAD + bytes as u64 <= away.left.room,
            Holding::Closed(_) => unreachable!(),
        }
    }

    // Over disks that are at hand a full buffer is stored before a change is accepted, whatever its size.
    fn takes_alone(&self, bytes: u32) -> bool {
        match &self.held {
            Holding::Away(away) => away.takes(bytes),
            Holding::Open(_) | Holding::Closed(_) => false,
        }
    }

    fn pending(&self) -> usize {
        match &self.held {
            Holding::Open((_, pending)) => pending.len(),
            Holding::Away(away) => away.waiting,
            Holding::Closed(_) => 0,
        }
    }

    fn has_failed(&self) -> bool {
        match &self.held {
            Holding::Open((cartridge, _)) => cartridge.has_failed(),
            Holding::Away(away) => away.failed,
            Holding::Closed(_) => unreachable!(),
        }
    }

    ghost advances_nowhere = { λ medium. advances_nowhere (buffer_below D.state)
        (medium_moves_nowhere D.state (λ disk honest. D.is_disk disk honest)) medium };

    ghost awake_is_read = { awake_is_read D.state };

    ghost stores_nowhere = { λ medium. stores_nowhere (state_of D.state medium) };

    ghost moves_on = { medium_moves_on D.state };
}
