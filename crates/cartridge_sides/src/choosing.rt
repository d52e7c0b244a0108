//! Finding which of a cartridge's two sides counts.
ghost use Rattle.std.specs.Prelude.{◌≡◌, ◌≢◌, ◌↔◌, ◌≤◌, ℕ, IsTrue, List, length, take, slice_index, OnOk};
ghost use Rattle.tape_disk.specs.Disk.{Keeps, Only, Passes, SyncAll};
ghost use Rattle.tape_disk.specs.Moments.{LeavesOnly};
ghost use Rattle.gate_journal.specs.Side.{OPEN};
ghost use Rattle.gate_journal.specs.Crash.{Unwritten};
ghost use Rattle.gate_journal.specs.Reads.{OnlyOpenings, OnlyReads};
ghost use Rattle.cartridge_sides.specs.Choosing.{Chooses, FindsCounted, SyncsBoth};
ghost use Rattle.cartridge_sides.specs.Passes.{HasStart};
ghost use Rattle.cartridge_sides.specs.Inner.{FindsRead, HasOpenPair, IsGreater, OpensImage};
ghost use Rattle.vtl_base.specs.declared.layout.TheConstants.{PAIR_GATE};

use crate::fronts::read_front;
use crate::which::Which;
use gate_journal::{ParsedHead, parse_head};
use tape_disk::Disk;
use vtl_base::DevFault;
use vtl_base::layout::{
    BEGUN_BYTES, CARTRIDGE_MARK, LONGEST_FRONT, MARK_PLACE, OPEN, PAIR_GATE, SIDE_GATE,
};

/// The side that counts.
#[derive(Clone, Copy, Debug, PartialEq, Eq)]
pub struct Counted {
    /// Which of the two sides it is.
    pub which: Which,
    /// What was read from the head of that side.
    pub head: ParsedHead,
}

// The beginning of an image with the ten bytes of a side.
#[derive(Clone, Copy, Debug, PartialEq, Eq)]
enum Begins {
    // Its gate is closed.
    Closed,
    // Its gate is open, and it has this head.
    Open(ParsedHead),
    // Its gate is open, and it has no head.
    Headless,
}

/// Returns the side that counts, or None if neither does. Both disks are synced first, and then read, at most 65,536
/// bytes at a time; no other call is made. A sync that fails is the last call of both.
pub fn choose<D: Disk>(first: &mut D, second: &mut D) -> Result<Option<Counted>, DevFault>
    ensures disks { Keeps (D.state first.old) (D.state first.new)
        × Keeps (D.state second.old) (D.state second.new) }
    ensures answer { FindsCounted result (D.state first.old) (D.state first.new)
        (D.state second.old) (D.state second.new) }
    ensures first { (D.state first.old).honest →
        LeavesOnly (D.state first.old) (D.state first.new) (D.state first.old).may_leave }
    ensures second { (D.state second.old).honest →
        LeavesOnly (D.state second.old) (D.state second.new) (D.state second.old).may_leave }
    ensures reads { OnlyOpenings D.effect first.old first.new × OnlyOpenings D.effect second.old second.new }
    ensures begins { SyncsBoth D.effect result first.old first.new second.old second.new }
{
    make_sure(first)?;
    make_sure(second)?;
    choose_read(first, second)
}

// Syncs the disk: from then on a crash leaves what reads return.
fn make_sure<D: Disk>(disk: &mut D) -> Result<(), DevFault>
    ensures passes { Passes (D.state disk.old) (D.state disk.new) result }
    ensures any_moment { (D.state disk.old).honest →
        LeavesOnly (D.state disk.old) (D.state disk.new) (D.state disk.old).may_leave }
    ensures sure { (D.state disk.old).honest → OnOk result
        (((D.state disk.new).seen ≡ (D.state disk.old).seen)
        × Only (D.state disk.old).seen (D.state disk.new).may_leave) }
    ensures synced { D.effect SyncAll result disk.old disk.new }
{
    disk.sync()
}

// Finds the side that counts by the bytes of the disks, or None where none does. The second disk is read only where the
// pair gate of the first is open.
fn choose_read<D: Disk>(first: &mut D, second: &mut D) -> Result<Option<Counted>, DevFault>
    ensures disks { Keeps (D.state first.old) (D.state first.new)
        × Keeps (D.state second.old) (D.state second.new) }
    ensures unwritten { ((D.state first.old).honest → Unwritten (D.state first.old) (D.state first.new))
        × ((D.state second.old).honest → Unwritten (D.state second.old) (D.state second.new)) }
    ensures reads { OnlyReads D.effect first.old first.new × OnlyReads D.effect second.old second.new }
    ensures answer { FindsRead result (D.state first.old) (D.state first.new)
        (D.state second.old) (D.state second.new) }
{
    let mut one = [0; LONGEST_FRONT];
    let len = read_front(first, &mut one)?;
    let one = &one[..len];
    if !has_open_pair(one) {
        return Ok(choose_alone(one));
    }
    let mut two = [0; LONGEST_FRONT];
    let len = read_front(second, &mut two)?;
    Ok(choose_of_two(one, &two[..len]))
}

// The side that counts where the first image's pair gate is not open; None where none counts. The first image is read
// alone.
fn choose_alone(first: &[u8]) -> Option<Counted>
    requires { HasOpenPair first.now → ⊥ }
    ensures { (second : List ℕ) → Chooses first.now second result }
{
    if !has_start(first) {
        return None;
    }
    match beginning(first) {
        Begins::Open(head) => plain_alone(first, head),
        Begins::Closed => None,
        Begins::Headless => None,
    }
}

// The first side, whose head is `head`; None where it is a copy, which does not count.
fn plain_alone(first: &[u8], head: ParsedHead) -> Option<Counted>
    requires shut { HasOpenPair first.now → ⊥ }
    requires head { OpensImage first.now (Begins.Open head) }
    ensures { (second : List ℕ) → Chooses first.now second result }
{
    match head.copied {
        None => Some(Counted {
            which: Which::First,
            head,
        }),
        Some(_) => None,
    }
}

// The side that counts where the first image's pair gate is open; None where none counts.
fn choose_of_two(first: &[u8], second: &[u8]) -> Option<Counted>
    requires { HasOpenPair first.now }
    ensures { Chooses first.now second.now result }
{
    if !has_start(second) {
        return None;
    }
    if second[PAIR_GATE] == OPEN {
        return None;
    }
    match beginning(first) {
        Begins::Open(one) => beside_open(first, second, one),
        Begins::Closed => beside_closed(first, second),
        Begins::Headless => None,
    }
}

// The side that counts where the gate of the first side is open; None where none counts.
fn beside_open(first: &[u8], second: &[u8], one: ParsedHead) -> Option<Counted>
    requires pair { HasOpenPair first.now }
    requires first { OpensImage first.now (Begins.Open one) }
    requires second { HasStart second.now × (slice_index second.now PAIR_GATE ≢ OPEN) }
    ensures { Chooses first.now second.now result }
{
    match beginning(second) {
        Begins::Open(two) => greater(one, two),
        Begins::Closed => Some(Counted {
            which: Which::First,
            head: one,
        }),
        Begins::Headless => None,
    }
}

// The side that counts where the gate of the first side is closed; None where none counts.
fn beside_closed(first: &[u8], second: &[u8]) -> Option<Counted>
    requires pair { HasOpenPair first.now }
    requires first { OpensImage first.now Begins.Closed }
    requires second { HasStart second.now × (slice_index second.now PAIR_GATE ≢ OPEN) }
    ensures { Chooses first.now second.now result }
{
    match beginning(second) {
        Begins::Open(two) => Some(Counted {
            which: Which::Second,
            head: two,
        }),
        Begins::Closed => None,
        Begins::Headless => None,
    }
}

// The side with the greater epoch; None where both have the same.
fn greater(one: ParsedHead, two: ParsedHead) -> Option<Counted>
    ensures { IsGreater one two result }
{
    let first = one.epoch();
    let second = two.epoch();
    if second < first {
        Some(Counted {
            which: Which::First,
            head: one,
        })
    } else if first < second {
        Some(Counted {
            which: Which::Second,
            head: two,
        })
    } else {
        None
    }
}

// Whether an image begins with any byte, the mark and a byte.
fn has_start(image: &[u8]) -> bool
    ensures { IsTrue result ↔ HasStart image.now }
{
    image.len() >= BEGUN_BYTES && image[MARK_PLACE..PAIR_GATE] == CARTRIDGE_MARK[..]
}

// Whether an image begins with any byte, the mark and an open gate.
fn has_open_pair(image: &[u8]) -> bool
    ensures { IsTrue result ↔ HasOpenPair image.now }
{
    has_start(image) && image[PAIR_GATE] == OPEN
}

// The beginning of an image with the ten bytes of a side.
fn beginning(image: &[u8]) -> Begins
    requires { HasStart image.now }
    ensures { OpensImage image.now result }
{
    if image[SIDE_GATE] != OPEN {
        return Begins::Closed;
    }
    match parse_head(&image[BEGUN_BYTES..]) {
        Some(head) => Begins::Open(head),
        None => Begins::Headless,
    }
}
