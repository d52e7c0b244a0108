//! Whether a volume refuses a change, and why: over any catalog.
ghost use Rattle.std.specs.Prelude.{◌≡◌, true};
ghost use Rattle.volume_core.specs.declared.changes.Change.{Change};
ghost use Rattle.volume_core.specs.Volume.{demand_of, part_of, refusal_of, staying_of};
ghost use Rattle.volume_core.specs.Medium.{volume_of};

use crate::changes::{Change, Demand, Refusal};
use crate::media::Catalog;
use vtl_base::limits::MAX_OBJECTS;
use vtl_base::{ObjNo, PartNo};

/// Why the volume of a catalog refuses a change: the first cause that holds. None where the change is not refused.
pub fn refusal<C: Catalog>(catalog: &C, change: &Change) -> Option<Refusal>
    requires { (C.state catalog.now).awake ≡ true }
    ensures { result ≡ refusal_of (volume_of (C.state catalog.now)) change.now }
{
    refusal_for(catalog, change.part(), change.staying(), change.demand())
}

/// Why the volume of a catalog refuses each change of partition `part` that keeps its first `at` objects and asks for
/// this. So the change need not be there yet.
pub fn refusal_for<C: Catalog>(
    catalog: &C,
    part: PartNo,
    at: ObjNo,
    demand: Demand,
) -> Option<Refusal>
    requires { (C.state catalog.now).awake ≡ true }
    ensures { (change : Change) → part_of change ≡ part → staying_of change ≡ at → demand_of change ≡ demand
        → result ≡ refusal_of (volume_of (C.state catalog.now)) change }
{
    if part >= catalog.parts() {
        return Some(Refusal::NoPartition);
    }
    if at > catalog.count(part) {
        return Some(Refusal::PastEnd);
    }
    let left = catalog.capacity(part) - catalog.used(part, at);
    if demand.objects > MAX_OBJECTS - at || demand.bytes > left {
        return Some(Refusal::NoRoom);
    }
    if !demand.formed {
        return Some(Refusal::TooLong);
    }
    None
}
