//! Opening a store: the body of each frame is read once, and the state in the last one counts.
ghost use Rattle.std.specs.Prelude.{◌≡◌, ◌≤◌, None, IfOk, IfErr, false};
ghost use Rattle.tape_disk.specs.Disk.{Keeps, Only};
ghost use Rattle.tape_disk.specs.Moments.{LeavesOnly};
ghost use Rattle.gate_journal.specs.Reads.{SyncsFirst};
ghost use Rattle.gate_journal.specs.Answers.{NoneFailed};
ghost use Rattle.pr_core.specs.States.{power_loss};
ghost use Rattle.aptpl_store.specs.Answers.{IsStoreNotOpened, Recovers, disk_of_opened};
ghost use Rattle.aptpl_store.specs.Contents.{GivesStates, latest};
ghost use Rattle.vtl_base.specs.declared.limits.TheConstants.{RESERVED_SAVES};

use crate::error::{StoreError, StoreRefused};
use crate::recovering::Recovered;
use crate::stores::AptplStore;
use gate_journal::{Journal, NotDecoded};
use pr_core::Reservations;
use std::alloc::Global;
use tape_disk::Disk;
use vtl_base::limits::RESERVED_SAVES;

impl<D: Disk> AptplStore<D> {
    /// Opens the store on `disk`, and returns the store and what a loss of power leaves of the state that was saved
    /// last; if none was saved, that is the empty state. The call begins with a sync, and writes nothing. Where the
    /// disk is honest, a crash at any moment of the call, or after any error, leaves only what it might have left
    /// before; after any result but `Device` it leaves exactly what a read returned before the call. A cartridge's side
    /// is refused as `NotOurs`, even where it is damaged, since the header is read first. `BadRecord` names the first
    /// frame that spells no state, even where later frames spell states.
    pub fn open(alloc: Global, disk: D) -> Result<(AptplStore<D>, Reservations), StoreRefused<D>>
        ensures disk { Keeps (D.state disk) (D.state (disk_of_opened result)) }
        ensures ok { IfOk result (λ opened. (opened.0.torn ≡ None) × (opened.0.failed ≡ false)
            × (RESERVED_SAVES ≤ opened.0.reserved)
            × (opened.1 ≡ power_loss (latest opened.0.states))
            × NoneFailed (D.state disk) (D.state opened.0.disk)) }
        ensures gives { IfOk result (λ opened. (D.state disk).honest →
            GivesStates opened.0.heading opened.0.states (D.state disk).seen
            × Only (D.state disk).seen (D.state opened.0.disk).may_leave) }
        ensures recovers { (D.state disk).honest → Recovers result (D.state disk).seen }
        ensures refused { IfErr result (λ refused.
            IsStoreNotOpened refused.error (D.state disk) (D.state refused.disk)) }
        ensures any_moment { (D.state disk).honest →
            LeavesOnly (D.state disk) (D.state (disk_of_opened result)) (D.state disk).may_leave }
        ensures begins { SyncsFirst D.effect disk (disk_of_opened result) }
    {
        match Journal::open_decoded::<Recovered>(alloc, disk, RESERVED_SAVES) {
            Ok((journal, recovered)) => {
                let Recovered {
                    frame,
                    noted,
                    last,
                    ..
                } = recovered;
                let store = AptplStore {
                    journal,
                    frame,
                    noted,
                };
                Ok((store, last.power_loss()))
            }
            Err(refused) => {
                let NotDecoded { error, disk } = refused;
                let error = StoreError::from(error);
                Err(StoreRefused { error, disk })
            }
        }
    }
}
