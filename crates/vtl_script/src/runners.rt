//! The trait of a runner, which runs the items of a script.
ghost use Rattle.std.specs.Prelude.{◌≡◌, ◌++◌, ◌∷◌, [], ℕ, Bool, List, IfOk, OnErr};
ghost use Rattle.scsi_sense.specs.declared.replies.Reply.{Reply};
ghost use Rattle.vtl_script.specs.declared.items.Item.{Item};
ghost use Rattle.vtl_script.specs.declared.items.Item.TheVariants.{Phase};
ghost use Rattle.vtl_script.specs.Items.{IsRunnable};
ghost use Rattle.vtl_script.specs.Runs.{AnswersSome};

use crate::items::Item;
use scsi_sense::Reply;
use std::alloc::Global;
use vtl_base::{DriveNo, NoMemory};

/// A type that runs the items of a script, one after another.
pub trait Runner {
    /// Whether there is a drive with this number.
    ghost is_configured: { Self → ℕ → Bool };

    /// Relates a runner before it ran some items to the runner after it: from the first state, it may give these
    /// replies to these items, one after another, and then is in the last state.
    ghost answers: { Self → List Item → List Reply → Self → Type 0 };

    /// What must hold of a runner before it runs an item: for instance the precondition of a closure that it calls.
    ghost is_ready: { Self → Type 0 };

    /// Whether this drive is configured.
    fn configured(&self, drive: DriveNo) -> bool
        ensures { result ≡ is_configured self.now drive };

    /// Runs an item, and returns the replies: one for each command of a phase, in order, or one for a move. Where
    /// memory runs out, only some of the commands were run, from the first on: none, a few or all. A move was either
    /// run or not. The data of each command may be taken out of `item` (`Bytes::take`).
    fn run(&mut self, alloc: Global, item: &mut Item) -> Result<Vec<Reply>, NoMemory>
        requires item { IsRunnable (is_configured self.old) item.old }
        requires ready { is_ready self.old }
        ensures ok { IfOk result (λ replies. answers self.old (item.old ∷ []) replies.items self.new) }
        ensures err { OnErr result (AnswersSome answers self.old item.old self.new) }
        ensures same { is_configured self.new ≡ is_configured self.old }
        ensures ready { is_ready self.new };

    /// A run of no items gives no replies, and leaves the runner as it is.
    ghost answers_none: { (runner : Self) → answers runner [] [] runner };

    /// A phase with no commands gives no replies either, and leaves the runner as it is.
    ghost answers_empty: { (runner : Self) → answers runner (Phase [] ∷ []) [] runner };

    /// Two runs, one after the other, answer the items of the first and then those of the second.
    ghost answers_on: { (old mid new : Self) (first rest : List Item) (replies others : List Reply)
        → answers old first replies mid → answers mid rest others new
        → answers old (first ++ rest) (replies ++ others) new };
}
