//! A law of the definitions, which no code calls.
ghost use Rattle.scsi_opcodes.specs.Laws.{CodesDiffer};

/// No two commands have the same operation code: each is found by its code.
pub fn codes_differ()
    ensures { CodesDiffer }
{}
