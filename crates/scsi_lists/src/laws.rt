//! Laws of the definitions, which no code calls.
ghost use Rattle.scsi_lists.specs.Laws.{ModeDataAsksForItsMode, TypesDiffer};

/// No two types of a reservation have the same number: each is found by its number.
pub fn types_differ()
    ensures { TypesDiffer }
{}

/// The data of MODE SENSE are accepted as the list of MODE SELECT, and ask for the mode that they reported.
pub fn mode_data_asks_for_its_mode()
    ensures { ModeDataAsksForItsMode }
{}
