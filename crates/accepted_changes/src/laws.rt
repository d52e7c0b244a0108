//! Laws of accepting types. Each is a function that does nothing, and its contract is the law.
ghost use Rattle.accepted_changes.specs.Laws.{AcknowledgedBegins, AcknowledgedIsKept, CallsDropNothing, CrashesKeepAcknowledged, EventsKeepBase, FailuresKeepAccepted, FaultsStayUntilStopped, IsToldOnce, KeptBegins, KeptStaysKept, MovesAppend, NothingMoves, RebasesKeepAccepted, SafeIsKept, StepsKeepCores, StopsClearFaults};

use crate::accepting::Accepting;

/// The items that were accepted when an acknowledgement was made survive all later steps, over any number of stops and
/// faults. That is, the items accepted in the end begin with them, or a list that begins with them has gone into a base
/// since.
pub fn what_was_acknowledged_is_kept<A: Accepting>()
    ensures { AcknowledgedIsKept A.rules }
{}

/// Where no later step changes the base, the list of the accepted items still begins with those that were acknowledged,
/// over any number of stops and faults.
pub fn what_was_acknowledged_begins<A: Accepting>()
    ensures { AcknowledgedBegins A.rules }
{}

/// The items that are safe survive all later steps, over any number of stops and faults: the items accepted in the end
/// begin with them, or a list that begins with them has gone into a base since.
pub fn what_is_safe_is_kept<A: Accepting>()
    ensures { SafeIsKept A.rules }
{}

/// Where the rules never let the base change, a list in which items survive begins with these items.
pub fn what_is_kept_begins<A: Accepting>()
    ensures { KeptBegins A.rules }
{}

/// Where the items of one list survive in a second, and those of the second in a third, the items of the first survive
/// in the third. So what survives each call and each change of base survives any sequence of calls and changes of base.
pub fn what_is_kept_stays_kept<A: Accepting>()
    ensures { KeptStaysKept A.rules }
{}

/// Steps lead from a well-formed core to a well-formed core: one in which what is safe is stored, and what is stored
/// was accepted. Where the rules never let the base change, both cores have the same base.
pub fn steps_keep_cores<A: Accepting>()
    ensures { StepsKeepCores A.rules }
{}

/// A run of no calls accepts nothing. Two runs, one after the other, are one run, which accepts the items of both.
pub fn moves_append<A: Accepting>()
    ensures nothing { NothingMoves A.rules A.device }
    ensures in_a_row { MovesAppend A.rules A.device }
{}

/// No event (a run of calls of the device) changes the base. After an event, the accepted items begin with those that
/// were safe before it.
pub fn events_keep_their_base<A: Accepting>()
    ensures { EventsKeepBase A.rules A.device }
{}

/// What was accepted survives a change of base, such as a reclaim. Over an honest device this holds at each moment of
/// the change: an image then has exactly the items accepted before, or it has a new base, into which exactly these
/// items have gone, and no items.
pub fn changes_of_base_keep_what_was_accepted<A: Accepting>()
    ensures { RebasesKeepAccepted A.rules A.device }
{}

/// What was accepted survives a change of base even if an honest device fails during it. At each moment of the change
/// an image has exactly the items accepted before, or it has a new base, into which exactly these items have gone, and
/// no items.
pub fn failed_changes_of_base_keep_what_was_accepted<A: Accepting>()
    ensures { FailuresKeepAccepted A.rules A.device }
{}

/// A crash of an honest device at any moment after an acknowledgement, with no change of base since, leaves all that
/// was acknowledged, and a first part of what was accepted since.
pub fn a_crash_leaves_what_was_acknowledged<A: Accepting>()
    ensures { CrashesKeepAcknowledged A.rules A.device }
{}

/// An event (a run of calls of the device) drops nothing where no call fails, no fault was reported before, none of
/// before is reported in it, and what an earlier stop left is safe. What was accepted before the event and in it is
/// accepted after it.
pub fn calls_drop_nothing<A: Accepting>()
    ensures { CallsDropNothing A.rules A.device }
{}

/// After a fault of the device, reported or not, nothing more is stored or acknowledged until a stop comes, and nothing
/// is made safe but what an earlier stop left. Once the fault was reported, nothing is accepted. A stop ends this. To
/// report a fault a second time changes nothing.
pub fn faults_stay_until_stopped<A: Accepting>()
    ensures stay { FaultsStayUntilStopped A.rules }
    ensures cleared { StopsClearFaults A.rules }
    ensures once { IsToldOnce A.rules }
{}
