//! Fields whose values no script shows: bits that are ignored, and numbers beyond those of a drive.
use super::is_decoded;
use scsi_lists::{PrAction, PrType};
use scsi_opcodes::{Command, PrRead};
use vtl_base::SpaceCode;

macro_rules! blocks {
    ($count:expr) => {
        Some(Command::Space {
            code: SpaceCode::Blocks,
            count: $count,
        })
    };
}

macro_rules! locate {
    ($object:expr, $part:expr) => {
        Some(Command::Locate {
            object: $object,
            part: $part,
        })
    };
}

macro_rules! reads {
    ($action:expr, $length:expr) => {
        Some(Command::PersistentReserveIn {
            action: $action,
            length: $length,
        })
    };
}

macro_rules! orders {
    ($action:expr, $length:expr) => {
        Some(Command::PersistentReserveOut {
            action: $action,
            length: $length,
        })
    };
}

const LAST: u32 = 4_294_967_295;

const RESERVE: PrAction = PrAction::Reserve(PrType::WriteExclusive);

const RELEASE: PrAction = PrAction::Release(PrType::ExclusiveAccessAllRegistrants);

const IGNORE: PrAction = PrAction::RegisterAndIgnoreExistingKey;

const READ_KEYS: PrRead = PrRead::ReadKeys;

const WRITE: Option<Command> = Some(Command::Write { length: 1_048_576 });

const SELECT_MODE: Option<Command> = Some(Command::ModeSelect { length: 128 });

const SENSE_MODE: Option<Command> = Some(Command::ModeSense {
    length: 128,
    disable_descriptors: false,
});

// A block of 6 or 10 bytes as a number, its command, and the bytes that are sent with it; a block without a command has
// an invalid field.
static OF_6_BYTES: &'static [(u64, Option<Command>, u32)] = &[
    (0x0afe_1000_00ff, WRITE, 1_048_576),
    (0x1100_0000_00ff, blocks!(0), 0),
    (0x11f0_1234_5600, blocks!(0x12_3456), 0),
    (0x1500_1234_8000, SELECT_MODE, 128),
    (0x1af7_00ff_80ff, SENSE_MODE, 0),
    (0x1a08_1000_0c00, None, 0),
];

static OF_10_BYTES: &'static [(u128, Option<Command>, u32)] = &[
    (0x2b02_00ff_ffff_ff00_ff00, locate!(LAST, Some(255)), 0),
    (0x2bfd_ff12_3456_78ff_ffff, locate!(0x1234_5678, None), 0),
    (0x2bff_ff87_6543_21ff_01ff, locate!(0x8765_4321, Some(1)), 0),
    (0x2b04_0000_0001_0000_0200, locate!(256, None), 0),
    (0x5e00_0000_0000_0012_3400, reads!(READ_KEYS, 0x1234), 0),
    (0x5ee0_ffff_ffff_ff00_01ff, reads!(READ_KEYS, 1), 0),
    (
        0x5e21_0000_0000_01ff_ff00,
        reads!(PrRead::ReadReservation, 65_535),
        0,
    ),
    (0x5fe1_01ff_ff00_0000_00ff, orders!(RESERVE, 0), 0),
    (0x5f22_0800_00ff_ffff_ff00, orders!(RELEASE, LAST), LAST),
    (
        0x5f00_ffff_ff01_0203_04ff,
        orders!(PrAction::Register, 0x0102_0304),
        0x0102_0304,
    ),
    (
        0x5f83_ff00_0000_0001_0000,
        orders!(PrAction::Clear, 256),
        256,
    ),
    (0x5f46_7700_0000_0000_1700, orders!(IGNORE, 23), 23),
];

#[test]
fn fields(rt: HostRuntime) {
    for &(block, command, sent) in OF_6_BYTES {
        is_decoded(&rt, &block.to_be_bytes()[2..], command, sent);
    }
    for &(block, command, sent) in OF_10_BYTES {
        is_decoded(&rt, &block.to_be_bytes()[6..], command, sent);
    }
}
