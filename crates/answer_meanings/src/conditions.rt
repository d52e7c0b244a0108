//! The conditions that sense data report, each with its words.
ghost use Rattle.std.specs.Prelude.{◌≡◌};
ghost use Rattle.answer_meanings.specs.Conditions.{coded_condition, condition_of, is_in, row_of_condition};
ghost use Rattle.answer_meanings.specs.Words.{words_of};

use scsi_sense::{Sense, SenseKey};

/// A condition that drives and moves report by sense data (SPC-4, SSC-4, SMC-3). If the keeper of the reservations
/// (their store) has failed, the condition is `Failed`, as for a medium that has failed. A deferred error has the
/// condition of the error that it reports.
#[derive(Clone, Copy, PartialEq, Eq, Debug)]
pub enum Condition {
    /// There is nothing to report.
    NothingToReport,
    /// The length of a block differs from the length that a READ asked for.
    IncorrectLength,
    /// A filemark was met.
    Filemark,
    /// All was written, and the partition is nearly full.
    EarlyWarning,
    /// The beginning of a partition was met.
    Beginning,
    /// No cartridge is loaded.
    NotPresent,
    /// A device failed while pending changes were stored.
    WriteError,
    /// A device failed while a block was read or a cartridge was loaded; or a side, the bytes of a cartridge's file,
    /// was refused.
    ReadError,
    /// The medium or the keeper of the reservations has failed.
    Failed,
    /// A command block has no operation code, or an unknown one.
    UnknownCommand,
    /// The length of a command block, one of its fields, or the number of data bytes sent with it is wrong.
    WrongBlock,
    /// A parameter list has a wrong length.
    WrongListLength,
    /// A field of a parameter list is wrong.
    WrongList,
    /// A release names a type other than that of the reservation.
    WrongRelease,
    /// An element address is neither a slot's nor a drive's.
    WrongAddress,
    /// The destination of a move holds a cartridge.
    DestinationFull,
    /// The source of a move holds no cartridge.
    SourceEmpty,
    /// A reservation store is full.
    StoreFull,
    /// The drive was powered on.
    PowerOn,
    /// The medium may have been changed.
    MediumChanged,
    /// Another host cleared the registrations and the reservation.
    ReservationsPreempted,
    /// Another host removed this host's registration.
    RegistrationsPreempted,
    /// Another host released a reservation of a type for registrants (SPC-4, types 5 to 8), or changed its type.
    ReservationsReleased,
    /// Another host changed the mode.
    ModeChanged,
    /// The end of data was met.
    EndOfData,
    /// Memory ran out.
    NoMemory,
    /// There is no room for the data or the filemarks, and nothing changed.
    NoRoom,
}

// Those that are known by key and code.
const BY_CODE: [Condition; 26] = [
    Condition::NothingToReport,
    Condition::Filemark,
    Condition::EarlyWarning,
    Condition::Beginning,
    Condition::NotPresent,
    Condition::WriteError,
    Condition::ReadError,
    Condition::Failed,
    Condition::UnknownCommand,
    Condition::WrongBlock,
    Condition::WrongListLength,
    Condition::WrongList,
    Condition::WrongRelease,
    Condition::WrongAddress,
    Condition::DestinationFull,
    Condition::SourceEmpty,
    Condition::StoreFull,
    Condition::PowerOn,
    Condition::MediumChanged,
    Condition::ReservationsPreempted,
    Condition::RegistrationsPreempted,
    Condition::ReservationsReleased,
    Condition::ModeChanged,
    Condition::EndOfData,
    Condition::NoMemory,
    Condition::NoRoom,
];

// The sense data of a condition.
#[derive(Clone, Copy)]
struct Row {
    key: SenseKey,
    code: u8,
    qualifier: u8,
}

impl Row {
    fn new(key: SenseKey, code: u8, qualifier: u8) -> Self
        ensures { result ≡ record { key = key; code = code; qualifier = qualifier } }
    {
        Row {
            key,
            code,
            qualifier,
        }
    }
}

impl Condition {
    /// The condition that `sense` reports: `IncorrectLength` where the bit ILI is set, else the condition with the
    /// sense key, code and qualifier of `sense`. None where no condition has these.
    pub fn of(sense: &Sense) -> Option<Self>
        ensures { result ≡ condition_of sense.now }
    {
        if sense.incorrect_length {
            Some(Condition::IncorrectLength)
        } else {
            Condition::by_code(sense)
        }
    }

    fn by_code(sense: &Sense) -> Option<Self>
        ensures { result ≡ coded_condition sense.now }
    {
        BY_CODE
            .iter()
            .copied()
            .find(|condition| condition.is_in(sense))
    }

    fn is_in(self, sense: &Sense) -> bool
        ensures { result ≡ is_in sense.now self }
    {
        let row = self.row();
        row.key as u8 == sense.key as u8
            && row.code == sense.code
            && row.qualifier == sense.qualifier
    }

    fn row(self) -> Row
        ensures { result ≡ row_of_condition self }
    {
        match self {
            Condition::NothingToReport => Row::new(SenseKey::NoSense, 0x00, 0x00),
            Condition::IncorrectLength => Row::new(SenseKey::NoSense, 0x00, 0x00),
            Condition::Filemark => Row::new(SenseKey::NoSense, 0x00, 0x01),
            Condition::EarlyWarning => Row::new(SenseKey::NoSense, 0x00, 0x02),
            Condition::Beginning => Row::new(SenseKey::NoSense, 0x00, 0x04),
            Condition::NotPresent => Row::new(SenseKey::NotReady, 0x3a, 0x00),
            Condition::WriteError => Row::new(SenseKey::MediumError, 0x0c, 0x00),
            Condition::ReadError => Row::new(SenseKey::MediumError, 0x11, 0x00),
            Condition::Failed => Row::new(SenseKey::HardwareError, 0x44, 0x00),
            Condition::UnknownCommand => Row::new(SenseKey::IllegalRequest, 0x20, 0x00),
            Condition::WrongBlock => Row::new(SenseKey::IllegalRequest, 0x24, 0x00),
            Condition::WrongListLength => Row::new(SenseKey::IllegalRequest, 0x1a, 0x00),
            Condition::WrongList => Row::new(SenseKey::IllegalRequest, 0x26, 0x00),
            Condition::WrongRelease => Row::new(SenseKey::IllegalRequest, 0x26, 0x04),
            Condition::WrongAddress => Row::new(SenseKey::IllegalRequest, 0x21, 0x01),
            Condition::DestinationFull => Row::new(SenseKey::IllegalRequest, 0x3b, 0x0d),
            Condition::SourceEmpty => Row::new(SenseKey::IllegalRequest, 0x3b, 0x0e),
            Condition::StoreFull => Row::new(SenseKey::IllegalRequest, 0x55, 0x04),
            Condition::PowerOn => Row::new(SenseKey::UnitAttention, 0x29, 0x00),
            Condition::MediumChanged => Row::new(SenseKey::UnitAttention, 0x28, 0x00),
            Condition::ReservationsPreempted => Row::new(SenseKey::UnitAttention, 0x2a, 0x03),
            Condition::RegistrationsPreempted => Row::new(SenseKey::UnitAttention, 0x2a, 0x05),
            Condition::ReservationsReleased => Row::new(SenseKey::UnitAttention, 0x2a, 0x04),
            Condition::ModeChanged => Row::new(SenseKey::UnitAttention, 0x2a, 0x01),
            Condition::EndOfData => Row::new(SenseKey::BlankCheck, 0x00, 0x05),
            Condition::NoMemory => Row::new(SenseKey::AbortedCommand, 0x55, 0x03),
            Condition::NoRoom => Row::new(SenseKey::VolumeOverflow, 0x00, 0x02),
        }
    }

    /// The words for this condition. They do not include what INFORMATION says.
    pub fn words(self) -> &'static str
        ensures { result.now ≡ words_of self }
    {
        match self {
            Condition::NothingToReport => "there is nothing to report",
            Condition::IncorrectLength => "the block has another length than the read",
            Condition::Filemark => "a filemark was reached",
            Condition::EarlyWarning => "all was written, and the partition is nearly full",
            Condition::Beginning => "the beginning of the partition was reached",
            Condition::NotPresent => "no cartridge is loaded",
            Condition::WriteError => "the device failed while pending changes were stored",
            Condition::ReadError => {
                "the cartridge cannot be read: its file is damaged, or the device failed"
            }
            Condition::Failed => {
                "the medium has failed until it is loaded anew, or the reservation store until a restart"
            }
            Condition::UnknownCommand => "the operation code is not known",
            Condition::WrongBlock => {
                "the command block's length, one of its fields or the count of data bytes is wrong"
            }
            Condition::WrongListLength => "the parameter list has a wrong length",
            Condition::WrongList => "a field of the parameter list is wrong",
            Condition::WrongRelease => "the reservation is of another type than the release",
            Condition::WrongAddress => "the element address is no slot's and no drive's",
            Condition::DestinationFull => "the destination of the move holds a cartridge",
            Condition::SourceEmpty => "the source of the move holds no cartridge",
            Condition::StoreFull => "the reservation store is full, and nothing changed",
            Condition::PowerOn => "not carried out: the drive was powered on",
            Condition::MediumChanged => "not carried out: the medium may have been changed",
            Condition::ReservationsPreempted => {
                "not carried out: another host cleared the registrations and the reservation"
            }
            Condition::RegistrationsPreempted => {
                "not carried out: another host removed this host's registration"
            }
            Condition::ReservationsReleased => {
                "not carried out: another host released the reservation or changed its type"
            }
            Condition::ModeChanged => "not carried out: another host changed the mode",
            Condition::EndOfData => "the end of data was reached",
            Condition::NoMemory => "memory ran out, and contents and reservations are as they were",
            Condition::NoRoom => "there is no room, and nothing changed",
        }
    }
}
