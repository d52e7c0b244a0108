//! What is required of drives and hosts before a library is opened.
ghost use Rattle.std.specs.Prelude.{◌≡◌, ◌+◌, ◌<◌, length, vec_len, All, IfOk, OnOk};
ghost use Rattle.std.specs.List.{range_with_len};
ghost use Rattle.vtl_base.specs.declared.limits.TheConstants.{DRIVES};
ghost use Rattle.library.specs.Counts.{AcceptedNone, one_if_there, places_filled};

use bay_moves::Bay;
use std::alloc::{AllocFailed, Global};
use tape_disk::Disk;
use vtl_base::Nexus;

/// A library cannot be opened with these: there are not sixteen places for drives, a drive has accepted changes, a host
/// has no number, or memory ran out.
#[derive(Clone, Copy, Debug, Drop)]
pub struct Unfit;

impl<T: Drop> From<AllocFailed<T>> for Unfit {
    fn from(_: AllocFailed<T>) -> Self {
        Unfit
    }
}

// 1 for a drive that has accepted no change, and 0 where there is no drive.
fn one_fresh<D: Disk>(bay: &Option<Bay<D>>) -> Result<u64, Unfit>
    ensures count { IfOk result (λ count. count ≡ one_if_there bay.now) }
    ensures fresh { OnOk result (AcceptedNone bay.now) }
{
    match bay {
        Some(bay) => {
            if bay.accepted() == 0 {
                Ok(1)
            } else {
                Err(Unfit)
            }
        }
        None => Ok(0),
    }
}

/// How many drives there are in sixteen places, if none has accepted a change.
pub fn count_fresh<D: Disk>(bays: &[Option<Bay<D>>]) -> Result<u64, Unfit>
    ensures places { OnOk result (length bays.now ≡ DRIVES) }
    ensures count { IfOk result (λ count. count ≡ places_filled bays.now) }
    ensures fresh { OnOk result (All (λ bay. AcceptedNone bay) bays.now) }
{
    if bays.len() != 16 {
        return Err(Unfit);
    }
    let mut count = 0;
    for bay in bays {
        let more = one_fresh(bay)?;
        count += more;
    }
    Ok(count)
}

// The host after this many others.
fn host_behind(others: u8) -> Result<Nexus, Unfit>
    requires { others < 255 }
    ensures { IfOk result (λ host. host ≡ others + 1) }
{
    match Nexus::new(others + 1) {
        Some(host) => Ok(host),
        None => Err(Unfit),
    }
}

/// `count` hosts, from number 1 on.
pub fn hosts(alloc: Global, count: u8) -> Result<Vec<Nexus>, Unfit>
    ensures { IfOk result (λ hosts. (hosts.items ≡ range_with_len 1 count) × (vec_len hosts ≡ count)) }
{
    let mut hosts = Vec::new(alloc);
    for number in 0..count {
        let host = host_behind(number)?;
        hosts.push(host)?;
    }
    Ok(hosts)
}
