//! The service action, scope and type in the command block of PERSISTENT RESERVE OUT.
ghost use Rattle.std.specs.Prelude.{◌≡◌, ◌<◌};
ghost use Rattle.scsi_lists.specs.Actions.{action_of, type_in, type_number, type_of};

/// The type of a persistent reservation (SPC-4).
#[derive(Clone, Copy, PartialEq, Eq, Debug)]
pub enum PrType {
    WriteExclusive = 1,
    ExclusiveAccess = 3,
    WriteExclusiveRegistrantsOnly = 5,
    ExclusiveAccessRegistrantsOnly = 6,
    WriteExclusiveAllRegistrants = 7,
    ExclusiveAccessAllRegistrants = 8,
}

const TYPES: [PrType; 6] = [
    PrType::WriteExclusive,
    PrType::ExclusiveAccess,
    PrType::WriteExclusiveRegistrantsOnly,
    PrType::ExclusiveAccessRegistrantsOnly,
    PrType::WriteExclusiveAllRegistrants,
    PrType::ExclusiveAccessAllRegistrants,
];

/// A service action of PERSISTENT RESERVE OUT, with the other fields of the command block that count for it (SPC-4;
/// that there are no more actions, own).
#[derive(Clone, Copy, PartialEq, Eq, Debug)]
pub enum PrAction {
    Register,
    Reserve(PrType),
    Release(PrType),
    Clear,
    /// The type of the reservation that PREEMPT may make; None where no reservation has the scope and type of the
    /// block. The type counts only where a reservation is made.
    Preempt(Option<PrType>),
    RegisterAndIgnoreExistingKey,
}

impl PrType {
    /// The type with this number (SPC-4); None where no type has it.
    pub fn of(number: u8) -> Option<Self>
        ensures { result ≡ type_of number }
    {
        TYPES.iter().copied().find(|kind| kind.number() == number)
    }

    /// The number of the type (SPC-4).
    pub fn number(self) -> u8
        ensures number { result ≡ type_number self }
        ensures range { result < 16 }
    {
        self as u8
    }

    // The type in byte 2 of a command block; None where the scope is not 0, or no type has the number.
    fn within(scope_type: u8) -> Option<Self>
        ensures { result ≡ type_in scope_type }
    {
        if scope_type / 16 != 0 {
            return None;
        }
        PrType::of(scope_type % 16)
    }
}

impl PrAction {
    /// The action of a command block. `service_action` is bits 4 to 0 of its byte 1, and `scope_type` is its byte 2.
    /// None where the service action is unknown, or where no reservation has the scope and type of a RESERVE or
    /// RELEASE; the block then has an invalid field.
    pub fn of(service_action: u8, scope_type: u8) -> Option<Self>
        ensures { result ≡ action_of service_action scope_type }
    {
        match service_action {
            0 => Some(PrAction::Register),
            1 => Some(PrAction::Reserve(PrType::within(scope_type)?)),
            2 => Some(PrAction::Release(PrType::within(scope_type)?)),
            3 => Some(PrAction::Clear),
            4 => Some(PrAction::Preempt(PrType::within(scope_type))),
            6 => Some(PrAction::RegisterAndIgnoreExistingKey),
            _ => None,
        }
    }
}
