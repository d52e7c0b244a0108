//! Flushers beside other work.
ghost use Rattle.std.specs.Prelude.{◌≤◌};
ghost use Rattle.vtl_base.specs.declared.limits.TheConstants.{DRIVES};
ghost use denote.Param.Send.{IsSend, IsSync};

use crate::flushers::Gate;
use crate::libraries::Library;
use ledgers::Parties;
use split_bay::Rings;
use std::marker::{Send, Sync};
use std::sync::Wait;
use std::thread;
use std::thread::Threads;
use tape_disk::Disk;
use vtl_base::DriveNo;

/// Calls `work`, and returns what it returned. Meanwhile each configured drive whose number is `number` or higher has a
/// flusher with the gate `gate`, which takes turns in a thread of its own. The call returns once all flushers have
/// ended. `work` has to end with a call of `close`: without that the flushers do not end. A flusher for which no thread
/// can be made is called after `work`, and so ends at once (own).
pub fn beside_flushers<
    D: Disk + Drop + Send,
    B: Parties + Rings + Send + Sync,
    H: Parties + Send + Sync,
    R: Threads + Wait + Sync,
    G: Gate + Sync,
    A,
    F: FnMut() -> A,
>(rt: &R, library: &Library<D, B, H>, gate: &G, number: u8, work: &mut F) -> A
    requires { F.pre work.old }
    ensures { F.step work.old result work.new }
{
    let Some(drive) = DriveNo::new(number) else {
        return work();
    };
    if !library.configured(drive) {
        return beside_flushers(rt, library, gate, number + 1, work);
    }
    let mut flushes = || library.flusher(rt, drive, gate);
    let mut others = || -> A
        requires { IsSync R.row × IsSend D.row × IsSend B.row × IsSync B.row × IsSend H.row × IsSync H.row
            × IsSync G.row × (number ≤ DRIVES) × F.pre work.now }
        ensures { F.step work.entry.now result work.exit.now }
    { beside_flushers(rt, library, gate, number + 1, work) };
    let (_, answer) = thread::join_mut(rt, &mut flushes, &mut others);
    answer
}
