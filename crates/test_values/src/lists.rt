//! The table of actions and types of PERSISTENT RESERVE OUT.
use scsi_lists::{PrAction, PrType};
use test_assertions::assert_equal;

// The type that the table has for a number.
fn in_table(number: u8) -> Option<PrType> {
    match number {
        1 => Some(PrType::WriteExclusive),
        3 => Some(PrType::ExclusiveAccess),
        5 => Some(PrType::WriteExclusiveRegistrantsOnly),
        6 => Some(PrType::ExclusiveAccessRegistrantsOnly),
        7 => Some(PrType::WriteExclusiveAllRegistrants),
        8 => Some(PrType::ExclusiveAccessAllRegistrants),
        _ => None,
    }
}

#[test]
fn actions_stand_in_the_table(rt: HostRuntime) {
    for scope_type in 0..=255u8 {
        let kind = in_table(scope_type);
        for action in 0..=255u8 {
            let wanted = match action {
                0 => Some(PrAction::Register),
                1 => kind.map(PrAction::Reserve),
                2 => kind.map(PrAction::Release),
                3 => Some(PrAction::Clear),
                4 => Some(PrAction::Preempt(kind)),
                6 => Some(PrAction::RegisterAndIgnoreExistingKey),
                _ => None,
            };
            assert_equal!(rt; PrAction::of(action, scope_type), wanted; (action, scope_type));
        }
    }
}
