//! Making two disks ready for a copy: the second is prepared, the pair gate opened, and the gate of the side
//! that does not count closed.
ghost use Rattle.std.specs.Prelude.{◌≡◌, List, ℕ, OnOk};
ghost use Rattle.tape_disk.specs.TwoDisks.{AreHonest, KeepsDisks, TwoDisks, TwoLeave};
ghost use Rattle.gate_journal.specs.Heads.{Head};
ghost use Rattle.cartridge_sides.specs.declared.which.Which.{Which};
ghost use Rattle.cartridge_sides.specs.Choosing.{FaultsOfOne};
ghost use Rattle.side_reclaim.specs.Ready.{GivesSide, GivesSurely, IsPaired, IsPreparedIfShut, IsReady, StillGives};

use cartridge_sides::{Which, close_spare, open_pair, prepare_pair};
use tape_disk::Disk;
use vtl_base::DevFault;

/// Prepares the two disks of a cartridge for a copy (`copy_over`) on the side that does not count. `which` is the side
/// that counts. At every moment, and after a fault of either disk, each pair of images that a crash may leave stands
/// for the same as before.
pub fn make_ready<D: Disk>(which: Which, first: &mut D, second: &mut D) -> Result<(), DevFault>
    ensures disks { KeepsDisks D.state (record { first = first.old; second = second.old })
        (record { first = first.new; second = second.new }) }
    ensures faults { FaultsOfOne result (D.state first.old) (D.state first.new)
        (D.state second.old) (D.state second.new) }
    ensures ok { AreHonest D.state (record { first = first.old; second = second.old }) →
        (head : Head) (bodies : List (List ℕ)) →
        GivesSurely D.state (record { first = first.old; second = second.old }) which head bodies →
        OnOk result (StillGives D.state (record { first = first.old; second = second.old })
        (record { first = first.new; second = second.new }) which head bodies
        × IsReady D.state (record { first = first.new; second = second.new }) which) }
    ensures any_moment { AreHonest D.state (record { first = first.old; second = second.old }) →
        (head : Head) (bodies : List (List ℕ)) →
        GivesSurely D.state (record { first = first.old; second = second.old }) which head bodies →
        TwoLeave D.state (record { first = first.old; second = second.old })
        (record { first = first.new; second = second.new }) (GivesSide which head bodies) }
{
    prepare(which, first, second)?;
    pair(which, first, second)?;
    close(which, first, second)
}

// Prepares the second disk, where the pair gate is closed.
fn prepare<D: Disk>(which: Which, first: &mut D, second: &mut D) -> Result<(), DevFault>
    ensures disks { KeepsDisks D.state (record { first = first.old; second = second.old })
        (record { first = first.new; second = second.new }) }
    ensures faults { FaultsOfOne result (D.state first.old) (D.state first.new)
        (D.state second.old) (D.state second.new) }
    ensures ok { AreHonest D.state (record { first = first.old; second = second.old }) →
        (head : Head) (bodies : List (List ℕ)) →
        GivesSurely D.state (record { first = first.old; second = second.old }) which head bodies →
        OnOk result (StillGives D.state (record { first = first.old; second = second.old })
        (record { first = first.new; second = second.new }) which head bodies
        × IsPreparedIfShut D.state (record { first = first.new; second = second.new })) }
    ensures any_moment { AreHonest D.state (record { first = first.old; second = second.old }) →
        (head : Head) (bodies : List (List ℕ)) →
        GivesSurely D.state (record { first = first.old; second = second.old }) which head bodies →
        TwoLeave D.state (record { first = first.old; second = second.old })
        (record { first = first.new; second = second.new }) (GivesSide which head bodies) }
{
    // Read for the proof: the clauses speak of the side that counts.
    let _ = which;
    prepare_pair(first, second)
}

// Opens the pair gate, if it is closed. In that case the second disk must be prepared.
fn pair<D: Disk>(which: Which, first: &mut D, second: &mut D) -> Result<(), DevFault>
    ensures disks { KeepsDisks D.state (record { first = first.old; second = second.old })
        (record { first = first.new; second = second.new }) }
    ensures faults { FaultsOfOne result (D.state first.old) (D.state first.new)
        (D.state second.old) (D.state second.new) }
    ensures ok { AreHonest D.state (record { first = first.old; second = second.old }) →
        (head : Head) (bodies : List (List ℕ)) →
        GivesSurely D.state (record { first = first.old; second = second.old }) which head bodies →
        IsPreparedIfShut D.state (record { first = first.old; second = second.old }) →
        OnOk result (StillGives D.state (record { first = first.old; second = second.old })
        (record { first = first.new; second = second.new }) which head bodies
        × IsPaired D.state (record { first = first.new; second = second.new })) }
    ensures any_moment { AreHonest D.state (record { first = first.old; second = second.old }) →
        (head : Head) (bodies : List (List ℕ)) →
        GivesSurely D.state (record { first = first.old; second = second.old }) which head bodies →
        IsPreparedIfShut D.state (record { first = first.old; second = second.old }) →
        TwoLeave D.state (record { first = first.old; second = second.old })
        (record { first = first.new; second = second.new }) (GivesSide which head bodies) }
{
    // Read for the proof: the clauses speak of the side that counts.
    let _ = which;
    open_pair(first, second)
}

// Closes the gate of the side that does not count, if that gate is open. The pair gate must be open.
fn close<D: Disk>(which: Which, first: &mut D, second: &mut D) -> Result<(), DevFault>
    ensures disks { KeepsDisks D.state (record { first = first.old; second = second.old })
        (record { first = first.new; second = second.new }) }
    ensures faults { FaultsOfOne result (D.state first.old) (D.state first.new)
        (D.state second.old) (D.state second.new) }
    ensures ok { AreHonest D.state (record { first = first.old; second = second.old }) →
        (head : Head) (bodies : List (List ℕ)) →
        GivesSurely D.state (record { first = first.old; second = second.old }) which head bodies →
        IsPaired D.state (record { first = first.old; second = second.old }) →
        OnOk result (StillGives D.state (record { first = first.old; second = second.old })
        (record { first = first.new; second = second.new }) which head bodies
        × IsReady D.state (record { first = first.new; second = second.new }) which) }
    ensures any_moment { AreHonest D.state (record { first = first.old; second = second.old }) →
        (head : Head) (bodies : List (List ℕ)) →
        GivesSurely D.state (record { first = first.old; second = second.old }) which head bodies →
        IsPaired D.state (record { first = first.old; second = second.old }) →
        TwoLeave D.state (record { first = first.old; second = second.old })
        (record { first = first.new; second = second.new }) (GivesSide which head bodies) }
{
    match which {
        Which::First => close_spare(second),
        Which::Second => close_spare(first),
    }
}
