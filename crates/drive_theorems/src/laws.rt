//! Laws of the drive machine. Each is a function that does nothing, and its contract is the law.
ghost use Rattle.drive_commands.specs.Counted.{CountsAreHeld};
ghost use Rattle.drive_commands.specs.Determined.{HonestStepsAreSteps, StepsAreDetermined, RunsAreDetermined, RunsStaySure};
ghost use Rattle.drive_commands.specs.Run.{EventsAreRuns, RunsAppend, ServedByRuns};
ghost use Rattle.drive_commands.specs.ShownChanges.{RepliesShowChanges};

use positioning::laws::{each_locate_has_one_end, each_space_has_one_end};
use pr_core::Keeper;
use pr_core::laws::each_order_has_one_end;
use volume_core::Medium;

/// The contract of `Drive::execute` promises a step of the drive machine, and parts of that step only if the medium is
/// honest: if its device keeps the promises of a disk. Over an honest medium, the step is one of the machine without
/// that condition.
pub fn honest_steps<M: Medium>()
    ensures { HonestStepsAreSteps M.below.honest }
{}

/// An event has one answer, makes one list of changes and leads to one next state of the drive, as seen from outside,
/// unless a device fails, memory runs out or a side is full. How much of the volume is stored and how much is pending
/// makes no difference. The same holds for all events of a run, wherever turns of the flusher come among them. For an
/// event that opens a medium, it must also be certain which volume the medium's side holds. Suppose that this is
/// certain for the drive's medium at the start of a run, and for each medium that is put into the drive during the run.
/// Then it stays certain throughout the run, unless a device fails, memory runs out or a side is full.
pub fn answers_are_determined()
    ensures step { StepsAreDetermined }
    ensures run { RunsAreDetermined }
    ensures sure { RunsStaySure }
{
    each_space_has_one_end();
    each_locate_has_one_end();
    each_order_has_one_end();
}

/// Two runs of the machine are together one run if the second starts in the state in which the first ended.
pub fn runs_append()
    ensures { RunsAppend }
{}

/// What one drive answers to its hosts, one request after another, is what a run of the drive machine answers.
pub fn served_hosts_run<M: Medium, K: Keeper>()
    ensures { ServedByRuns M.state M.below K.kept K.below }
{}

/// What one drive answers to its hosts, with turns of the flusher between the requests, is what a run of the drive
/// machine answers. The run has each turn at the point where it was taken.
pub fn events_run<M: Medium, K: Keeper>()
    ensures { EventsAreRuns M.state M.below K.kept K.below }
{}

/// A reply shows how many changes the command made. A WRITE of at least one byte, a WRITE FILEMARKS of at least one
/// filemark, or an ERASE made exactly one change if it is acknowledged, by GOOD or by an early warning. It made one
/// change or none if the reply is a write error of its own, not a deferred one. If it has any other reply, it made no
/// change. No other command makes a change.
pub fn replies_show_changes<M: Medium, K: Keeper>()
    ensures { RepliesShowChanges M.state M.below K.kept K.below }
{}

/// A drive's count of accepted changes rises by one for each change that is accepted, up to 18,446,744,073,709,551,615,
/// and then stays at that number.
pub fn counts_are_held()
    ensures { CountsAreHeld }
{}
