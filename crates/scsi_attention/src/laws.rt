//! Laws of the definitions, which no code calls.
ghost use Rattle.scsi_attention.specs.Laws.{EachGetsItsOwn, EachOtherGetsIt, HasWhatIsPutIn, LacksWhatIsTakenOut, MembersDecide, NoNexusIsLost, OthersStay, TheOneGetsNone, TheOthersStay, UnionHasBoth};

/// A set has a condition that was established in it, and lacks one that was cleared. Establishing and clearing change
/// no other condition. The union of two sets has a condition exactly where one of the two has it, and sets with the
/// same conditions are equal.
pub fn sets_are_sets()
    ensures put_in { HasWhatIsPutIn }
    ensures taken_out { LacksWhatIsTakenOut }
    ensures others { OthersStay }
    ensures members { MembersDecide }
    ensures unions { UnionHasBoth }
{}

/// Where conditions are established for each nexus, the set of a nexus is joined with the conditions for that nexus,
/// and with no others. A nexus for which there are none keeps its set as it is, and there are as many sets as before.
pub fn each_gets_its_own()
    ensures established { EachGetsItsOwn }
    ensures others { TheOthersStay }
    ensures all { NoNexusIsLost }
{}

/// After a condition is established for every nexus but one, all other nexuses have it. The set of that one nexus is as
/// before.
pub fn all_but_one_get_it()
    ensures others { EachOtherGetsIt }
    ensures one { TheOneGetsNone }
{}
