//! The two disks of a cartridge: the disk of the side that counts, and the other disk.
ghost use Rattle.std.specs.Prelude.{◌≡◌};
ghost use Rattle.cartridge.specs.Disks.{disks_by};

use cartridge_sides::Which;

// The first and the second disk, from the disk of this side and the other disk.
pub(crate) fn in_order<D>(which: Which, this: D, other: D) -> (D, D)
    ensures { (record { first = result.0; second = result.1 }) ≡ disks_by which this other }
{
    match which {
        Which::First => (this, other),
        Which::Second => (other, this),
    }
}

// The disk of this side and the other one, given the first and the second disk.
pub(crate) fn apart<D>(which: Which, first: D, second: D) -> (D, D)
    ensures { disks_by which result.0 result.1 ≡ record { first = first; second = second } }
{
    match which {
        Which::First => (first, second),
        Which::Second => (second, first),
    }
}
