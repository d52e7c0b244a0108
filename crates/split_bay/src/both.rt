//! The disks of a medium come back, and go away again.
ghost use Rattle.std.specs.Prelude.{◌≡◌, ◌&&◌, [], None, not};
ghost use Rattle.tape_buffer.specs.Detaching.{loose_of};
ghost use Rattle.tape_buffer.specs.Moves.{IsHere};
ghost use Rattle.tape_buffer.specs.State.{state_of};
ghost use Rattle.drive_commands.specs.State.{IsAtHand, bay_of};
ghost use Rattle.split_bay.specs.Backs.{FollowsIn};
ghost use Rattle.split_bay.specs.Both.{AttachesIn, AttachesTo, BeginsNext, DetachesIn, DetachesTo};
ghost use Rattle.split_bay.specs.Fronts.{IsFrontOf, OwesHeld};
ghost use Rattle.split_bay.specs.Looks.{fails_anew, is_broken};
ghost use Rattle.split_bay.specs.Rings.{AreEnds};
ghost use Rattle.split_bay.specs.Spans.{no_span, span_of};

use crate::ends::{Receiving, Rings, Sending};
use crate::joined::{begin_span, look_both};
use crate::noted::NotedBeginning;
use crate::taking::take_known;
use drive_commands::Bay;
use tape_buffer::{Buffered, Disks};
use tape_disk::Disk;
use volume_core::Medium;

/// Brings the disks of a medium back. The changes that wait in the ring become pending. No span begins among them, so
/// both halves have the medium. Returns whether the device has failed, and the fault was not reported. The call
/// allocates no memory, and calls no device.
pub(crate) fn attach_to<D: Disk, R: Rings>(
    medium: &mut Buffered<D>,
    sending: &mut Sending<R>,
    receiving: &mut Receiving<R>,
    disks: Option<Disks<D>>,
) -> bool
    requires owes { OwesHeld medium.old.held (span_of sending.old.sent) }
    requires passed { loose_of medium.old ≡ [] }
    requires ends { AreEnds sending.old receiving.old.number receiving.old.received }
    requires follows { FollowsIn D.state disks (span_of receiving.old.received) }
    ensures sending { sending.new ≡ sending.old }
    ensures number { receiving.new.number ≡ receiving.old.number }
    ensures level { receiving.new.received ≡ sending.old.sent }
    ensures attaches { AttachesTo D.state sending.old.sent receiving.old.received disks medium.old medium.new }
    ensures fails { result
        ≡ (is_broken (state_of D.state medium.new) && not (state_of D.state medium.old).failed) }
{
    look_both(sending, receiving);
    let Some(mut disks) = disks else {
        unreachable!()
    };
    // Asked for the proof's sake: the disks are those of a medium that has them at hand.
    disks.known();
    take_known(receiving, &mut disks);
    let fails = disks.is_awake() && disks.has_failed() && !medium.has_failed();
    medium.attach(disks);
    fails
}

/// Sends the disks of a medium away, and begins a span.
pub(crate) fn detach_from<D: Disk, R: Rings>(
    medium: &mut Buffered<D>,
    sending: &mut Sending<R>,
    receiving: &mut Receiving<R>,
) -> Option<Disks<D>>
    requires hand { IsHere medium.old.held }
    requires number { sending.old.number ≡ receiving.old.number }
    requires level { receiving.old.received ≡ sending.old.sent }
    ensures begins { BeginsNext sending.old sending.new }
    ensures number { receiving.new.number ≡ sending.new.number }
    ensures level { receiving.new.received ≡ sending.new.sent }
    ensures owes { OwesHeld medium.new.held (span_of sending.new.sent) }
    ensures passed { loose_of medium.new ≡ [] }
    ensures detaches { DetachesTo D.state medium.old result medium.new }
    ensures follows { FollowsIn D.state result (span_of receiving.new.received) }
{
    let lent = Some(medium.detach());
    let left = medium.left();
    let noted = NotedBeginning::of(&lent, &left.records, &left.bytes, &left.room);
    begin_span(
        sending,
        receiving,
        noted,
        left.records,
        left.bytes,
        left.room,
    );
    lent
}

// Brings the disks of what is in a drive back.
pub(crate) fn attach_bay<D: Disk, R: Rings>(
    bay: &mut Bay<Buffered<D>>,
    sending: &mut Sending<R>,
    receiving: &mut Receiving<R>,
    disks: &mut Option<Disks<D>>,
) -> bool
    requires front { IsFrontOf bay.old (span_of sending.old.sent) }
    requires ends { AreEnds sending.old receiving.old.number receiving.old.received }
    requires follows { FollowsIn D.state disks.old (span_of receiving.old.received) }
    ensures sending { sending.new ≡ sending.old }
    ensures number { receiving.new.number ≡ receiving.old.number }
    ensures level { receiving.new.received ≡ sending.old.sent }
    ensures none { disks.new ≡ None }
    ensures attaches { AttachesIn D.state sending.old.sent receiving.old.received disks.old bay.old bay.new }
    ensures fails { result ≡ fails_anew (bay_of (state_of D.state) bay.old) (bay_of (state_of D.state) bay.new) }
{
    match bay {
        Bay::Empty => {
            attach_none(sending, receiving, disks.take());
            false
        }
        Bay::Unloaded(medium) => {
            let _ = attach_to(medium, sending, receiving, disks.take());
            false
        }
        Bay::Loaded(medium) => attach_to(medium, sending, receiving, disks.take()),
    }
}

// Both halves of an empty drive: nothing waits.
fn attach_none<D: Disk, R: Rings>(
    sending: &mut Sending<R>,
    receiving: &mut Receiving<R>,
    disks: Option<Disks<D>>,
)
    requires none { span_of sending.old.sent ≡ no_span }
    requires ends { AreEnds sending.old receiving.old.number receiving.old.received }
    requires follows { FollowsIn D.state disks (span_of receiving.old.received) }
    ensures sending { sending.new ≡ sending.old }
    ensures number { receiving.new.number ≡ receiving.old.number }
    ensures received { receiving.new.received ≡ receiving.old.received }
    ensures level { receiving.old.received ≡ sending.old.sent }
    ensures disks { disks ≡ None }
{
    sending.known();
    look_both(sending, receiving);
    match disks {
        None => {}
        Some(_lent) => unreachable!(),
    }
}

// Sends the disks of what is in a drive away, and begins a span.
pub(crate) fn detach_bay<D: Disk, R: Rings>(
    bay: &mut Bay<Buffered<D>>,
    sending: &mut Sending<R>,
    receiving: &mut Receiving<R>,
) -> Option<Disks<D>>
    requires hand { IsAtHand (λ m. IsHere m.held) bay.old }
    requires number { sending.old.number ≡ receiving.old.number }
    requires level { receiving.old.received ≡ sending.old.sent }
    ensures begins { BeginsNext sending.old sending.new }
    ensures number { receiving.new.number ≡ sending.new.number }
    ensures level { receiving.new.received ≡ sending.new.sent }
    ensures front { IsFrontOf bay.new (span_of sending.new.sent) }
    ensures follows { FollowsIn D.state result (span_of receiving.new.received) }
    ensures detaches { DetachesIn D.state bay.old result bay.new }
{
    match bay {
        Bay::Empty => detach_none(sending, receiving),
        Bay::Unloaded(medium) => detach_from(medium, sending, receiving),
        Bay::Loaded(medium) => detach_from(medium, sending, receiving),
    }
}

// Begins a span for an empty drive, in which nothing may be sent.
fn detach_none<D: Disk, R: Rings>(
    sending: &mut Sending<R>,
    receiving: &mut Receiving<R>,
) -> Option<Disks<D>>
    requires number { sending.old.number ≡ receiving.old.number }
    requires level { receiving.old.received ≡ sending.old.sent }
    ensures begins { BeginsNext sending.old sending.new }
    ensures number { receiving.new.number ≡ sending.new.number }
    ensures level { receiving.new.received ≡ sending.new.sent }
    ensures none { span_of sending.new.sent ≡ no_span }
    ensures disks { result ≡ None }
{
    let medium = None;
    let noted = NotedBeginning::of(&medium, &0, &0, &0);
    begin_span(sending, receiving, noted, 0, 0, 0);
    medium
}
