//! Laws of motions. Each is a function that does nothing, and its contract is the law.
ghost use Rattle.positioning.specs.Laws.{BackwardMeetsNoEnd, EachLocateEnds, EachSpaceEnds, FilemarksStopNone, ForwardMeetsNoStart, NoLocateEndsTwice, NoSpaceEndsTwice, OnlyDoneLeavesNothing};

/// From each place on a tape, SPACE has exactly one end, whatever its code and count are.
pub fn each_space_has_one_end()
    ensures some { EachSpaceEnds }
    ensures one { NoSpaceEndsTwice }
{}

/// LOCATE to any object has exactly one end.
pub fn each_locate_has_one_end()
    ensures some { EachLocateEnds }
    ensures one { NoLocateEndsTwice }
{}

/// SPACE forward never stops at the beginning of a partition, SPACE backward never at the end of data, and SPACE over
/// filemarks never because of a filemark. Nothing of the count is left if and only if the motion was completed.
pub fn each_stop_suits()
    ensures forward { ForwardMeetsNoStart }
    ensures backward { BackwardMeetsNoEnd }
    ensures filemarks { FilemarksStopNone }
    ensures left { OnlyDoneLeavesNothing }
{}
