//! Laws of conditions and of answer lines. Each is a function that does nothing; its contract is the law.
ghost use Rattle.answer_meanings.specs.Laws.{EachAttentionIsACondition, EachLineFits, EachSenseHasItsCondition};

/// For each kind of sense data that drives and moves report, by its name in `scsi_sense`, `Condition::of` returns the
/// condition that the name stands for. The same holds for each unit attention condition.
pub fn each_sense_has_its_condition()
    ensures senses { EachSenseHasItsCondition }
    ensures attentions { EachAttentionIsACondition }
{}

/// The line for any sense data that drives and moves report has at most 120 columns, whatever INFORMATION holds, if the
/// number of the script's line is less than 10,000,000,000.
pub fn each_line_fits()
    ensures { EachLineFits }
{}
