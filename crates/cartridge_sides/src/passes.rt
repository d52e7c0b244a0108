//! The passes of a reclaim, except for the writing of the copy. Each writes one disk, and may be stopped at any moment:
//! every pair of images then stands for the same as before or, in the last pass, for that or for the copy. After a
//! device fault that holds too.
//!
//! A gate is written only to change it. A gate that is written over itself may hold any byte until the sync, and a stop
//! then may leave an older state of the pair. So before a pass writes a gate, a crash must leave exactly what reads
//! return.
//!
//! A pass may be called over any disks. Its promises about bytes hold under the premises that its contract names. Over
//! disks that do not meet these, it still reads and writes only inside them.
ghost use Rattle.std.specs.Prelude.{◌≡◌, ◌⊎◌, ◌∷◌, ℕ, List, drop, OnOk, Result};
ghost use Rattle.tape_disk.specs.Disk.{Each, Keeps, Only, Passes};
ghost use Rattle.tape_disk.specs.Moments.{LeavesOnly};
ghost use Rattle.gate_journal.specs.Crash.{Unwritten};
ghost use Rattle.gate_journal.specs.Heads.{Head};
ghost use Rattle.gate_journal.specs.Side.{OPEN};
ghost use Rattle.cartridge_sides.specs.declared.which.Which.{Which};
ghost use Rattle.cartridge_sides.specs.Choosing.{FaultsOfOne};
ghost use Rattle.cartridge_sides.specs.Pairs.{PairStandsFor};
ghost use Rattle.cartridge_sides.specs.Passes.{HasStart, HasWritten, IsClosedNow, IsCopy, IsPairedNow, IsPrepared, IsPreparedBeside, IsShutPair, IsSureStart, SidesStandFor, TakesOver, first_image, spell_copy};

use crate::gates::{read_gate, write_gate};
use crate::starting::write_start;
use tape_disk::Disk;
use vtl_base::DevFault;
use vtl_base::layout::{CLOSED, OPEN, PAIR_GATE, SIDE_GATE};

/// Prepares the second disk, if the pair gate of the first disk is closed. The second disk then holds exactly the ten
/// bytes that a cartridge's side begins with, with both gates closed. If the pair gate is open, nothing is written.
pub fn prepare_pair<D: Disk>(first: &mut D, second: &mut D) -> Result<(), DevFault>
    ensures disks { Keeps (D.state first.old) (D.state first.new)
        × Keeps (D.state second.old) (D.state second.new) }
    ensures faults { FaultsOfOne result (D.state first.old) (D.state first.new)
        (D.state second.old) (D.state second.new) }
    ensures first { (D.state first.old).honest → Unwritten (D.state first.old) (D.state first.new) }
    ensures ok { (D.state first.old).honest → (D.state second.old).honest →
        HasStart (D.state first.old).seen → OnOk result
        (IsPreparedBeside (D.state first.old).seen (D.state second.old) (D.state second.new)) }
    ensures any_moment { (D.state first.old).honest → (D.state second.old).honest →
        (which : Which) (head : Head) (bodies : List (List ℕ)) →
        IsSureStart (D.state first.old) →
        Each (D.state second.old) (PairStandsFor which head bodies (D.state first.old).seen) →
        LeavesOnly (D.state second.old) (D.state second.new)
        (PairStandsFor which head bodies (D.state first.old).seen) }
{
    let before = read_gate(first, PAIR_GATE as u64)?;
    if before != OPEN {
        write_start(second)
    } else {
        Ok(())
    }
}

/// Opens the pair gate of the first disk, if it is closed; if it is open, nothing is written. The second disk is
/// neither read nor written. Suppose that both disks are honest (keep the promises of a disk), that the first begins
/// with the ten bytes of a cartridge's side, and that a crash would leave on it exactly what reads return. Suppose too
/// that, where its pair gate is closed, the second disk is prepared (`prepare_pair`). Then the pair stands for the same
/// as before at every moment of the call.
pub fn open_pair<D: Disk>(first: &mut D, second: &D) -> Result<(), DevFault>
    ensures passes { Passes (D.state first.old) (D.state first.new) result }
    ensures ok { (D.state first.old).honest → IsSureStart (D.state first.old) → OnOk result
        (IsPairedNow (D.state first.old) (D.state first.new)) }
    ensures any_moment { (D.state first.old).honest → (D.state second.now).honest →
        IsSureStart (D.state first.old) →
        (IsShutPair (D.state first.old).seen → Each (D.state second.now) IsPrepared) →
        (which : Which) (head : Head) (bodies : List (List ℕ)) (beside : List ℕ) →
        (D.state second.now).may_leave beside →
        PairStandsFor which head bodies (D.state first.old).seen beside →
        LeavesOnly (D.state first.old) (D.state first.new)
        (λ image. PairStandsFor which head bodies image beside) }
{
    // Read for the proof: it is known to be prepared.
    let _ = second;
    let pair = read_gate(first, PAIR_GATE as u64)?;
    if pair == OPEN {
        return Ok(());
    }
    write_gate(first, PAIR_GATE as u64, OPEN)
}

/// Closes the gate of `spare`, the side that does not count, if that gate is open; if it is closed, nothing is written.
pub fn close_spare<D: Disk>(spare: &mut D) -> Result<(), DevFault>
    ensures passes { Passes (D.state spare.old) (D.state spare.new) result }
    ensures ok { (D.state spare.old).honest → IsSureStart (D.state spare.old) → OnOk result
        (IsClosedNow (D.state spare.old) (D.state spare.new)) }
    ensures any_moment { (D.state spare.old).honest → IsSureStart (D.state spare.old) →
        (which : Which) (head : Head) (bodies : List (List ℕ)) (counts : List ℕ) →
        SidesStandFor which head bodies counts (D.state spare.old).seen →
        LeavesOnly (D.state spare.old) (D.state spare.new) (SidesStandFor which head bodies counts) }
{
    let side = read_gate(spare, SIDE_GATE as u64)?;
    if side != OPEN {
        return Ok(());
    }
    write_gate(spare, SIDE_GATE as u64, CLOSED)
}

/// Opens the gate of `spare`, on which a copy was written and synced (`write_copy`). At Ok the copy counts: its epoch
/// is greater by one than that of the other side, and it has as many frames as its base.
pub fn open_copy<D: Disk>(spare: &mut D) -> Result<(), DevFault>
    ensures passes { Passes (D.state spare.old) (D.state spare.new) result }
    ensures ok { (D.state spare.old).honest → HasStart (D.state spare.old).seen → OnOk result
        (((D.state spare.new).seen ≡ OPEN ∷ drop 1 (D.state spare.old).seen)
        × Only (D.state spare.new).seen (D.state spare.new).may_leave) }
    ensures takes_over { (D.state spare.old).honest →
        (which : Which) (head : Head) (bodies copies : List (List ℕ)) (counts : List ℕ) →
        SidesStandFor which head bodies counts (D.state spare.old).seen →
        (IsShutPair (first_image which counts (D.state spare.old).seen) → ⊥) → IsCopy head copies →
        HasWritten (spell_copy head copies) (D.state spare.old).seen →
        OnOk result (Each (D.state spare.new) (TakesOver which head copies counts)) }
    ensures any_moment { (D.state spare.old).honest →
        Only (D.state spare.old).seen (D.state spare.old).may_leave →
        (which : Which) (head : Head) (bodies copies : List (List ℕ)) (counts : List ℕ) →
        SidesStandFor which head bodies counts (D.state spare.old).seen →
        (IsShutPair (first_image which counts (D.state spare.old).seen) → ⊥) → IsCopy head copies →
        HasWritten (spell_copy head copies) (D.state spare.old).seen →
        LeavesOnly (D.state spare.old) (D.state spare.new)
        (λ image. SidesStandFor which head bodies counts image ⊎ TakesOver which head copies counts image) }
{
    write_gate(spare, SIDE_GATE as u64, OPEN)
}
