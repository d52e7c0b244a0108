//! Every operation code in blocks of every length.
use scsi_lists::PrAction;
use scsi_opcodes::{Cdb, Command, Opcode, PrRead, length_of};
use scsi_sense::Sense;
use test_assertions::assert_equal;
use vtl_base::SpaceCode;

const REQUEST_NOTHING: Command = Command::RequestSense { length: 0 };

const READ_NOTHING: Command = Command::Read {
    length: 0,
    suppress_length: false,
};

const NO_FILEMARK: Command = Command::WriteFilemarks {
    count: 0,
    immediate: false,
};

const NO_BLOCK: Command = Command::Space {
    code: SpaceCode::Blocks,
    count: 0,
};

const SELECT_NOTHING: Command = Command::ModeSelect { length: 0 };

const SENSE_NO_MODE: Command = Command::ModeSense {
    length: 0,
    disable_descriptors: false,
};

const UNLOAD: Command = Command::LoadUnload { load: false };

const TO_OBJECT_0: Command = Command::Locate {
    object: 0,
    part: None,
};

const READ_NO_KEYS: Command = Command::PersistentReserveIn {
    action: PrRead::ReadKeys,
    length: 0,
};

const REGISTER_NOTHING: Command = Command::PersistentReserveOut {
    action: PrAction::Register,
    length: 0,
};

// A code, the command of a block with it and 0 in all other bytes, and the length of that block.
static KNOWN: &'static [(u8, Opcode, Command, usize)] = &[
    (0x00, Opcode::TestUnitReady, Command::TestUnitReady, 6),
    (0x01, Opcode::Rewind, Command::Rewind, 6),
    (0x03, Opcode::RequestSense, REQUEST_NOTHING, 6),
    (0x05, Opcode::ReadBlockLimits, Command::ReadBlockLimits, 6),
    (0x08, Opcode::Read, READ_NOTHING, 6),
    (0x0a, Opcode::Write, Command::Write { length: 0 }, 6),
    (0x10, Opcode::WriteFilemarks, NO_FILEMARK, 6),
    (0x11, Opcode::Space, NO_BLOCK, 6),
    (0x12, Opcode::Inquiry, Command::Inquiry { length: 0 }, 6),
    (0x15, Opcode::ModeSelect, SELECT_NOTHING, 6),
    (0x19, Opcode::Erase, Command::Erase, 6),
    (0x1a, Opcode::ModeSense, SENSE_NO_MODE, 6),
    (0x1b, Opcode::LoadUnload, UNLOAD, 6),
    (0x2b, Opcode::Locate, TO_OBJECT_0, 10),
    (0x34, Opcode::ReadPosition, Command::ReadPosition, 10),
    (0x5e, Opcode::PersistentReserveIn, READ_NO_KEYS, 10),
    (0x5f, Opcode::PersistentReserveOut, REGISTER_NOTHING, 10),
];

// What the table has for a code.
fn known(code: u8) -> Option<(Opcode, Command, usize)> {
    for &(named, opcode, command, bytes) in KNOWN {
        if named == code {
            return Some((opcode, command, bytes));
        }
    }
    None
}

#[test]
fn every_code_at_every_length(rt: HostRuntime) {
    for code in 0..=255u8 {
        let mut block = [0u8; 16];
        block[0] = code;
        let row = known(code);
        assert_equal!(rt; length_of(code), row.map(|(_, _, bytes)| bytes));
        if let Some((opcode, command, _)) = row {
            assert_equal!(rt; command.opcode(), opcode);
        }
        for length in 0..=16usize {
            let (opcode, expected) = match row {
                Some((opcode, command, bytes)) if length == bytes => (Some(opcode), Ok(command)),
                Some((opcode, _, _)) if length > 0 => (Some(opcode), Err(Sense::invalid_field())),
                _ => (None, Err(Sense::invalid_operation_code())),
            };
            assert_equal!(rt; Opcode::of(&block[..length]), opcode; (length, code));
            assert_equal!(rt; Cdb::decode(&block[..length]), expected; (length, code));
        }
    }
}
