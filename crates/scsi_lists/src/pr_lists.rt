//! The parameter list of PERSISTENT RESERVE OUT.
ghost use Rattle.std.specs.Prelude.{◌≡◌, ◌<◌, ◌≤◌, length};
ghost use Rattle.scsi_lists.specs.PrLists.{list_decoded, has_bit, has_refused_bit, key_in, order_of};

use crate::actions::{PrAction, PrType};
use byteorder::{BigEndian, ByteOrder};
use scsi_sense::Sense;

/// The length of the parameter list of PERSISTENT RESERVE OUT, in bytes.
pub const PR_LIST_BYTES: usize = 24;

/// What a host orders with PERSISTENT RESERVE OUT, with the fields that count for it (SPC-4). `key` is RESERVATION KEY:
/// the key that the host is registered with. In `Register` it is 0 for a host that is not registered.
#[derive(Clone, Copy, PartialEq, Eq, Debug)]
pub enum PrOut {
    /// Registers the host with `new_key`, or unregisters it where `new_key` is 0. `aptpl` is APTPL: whether the
    /// registrations and the reservation outlive a loss of power.
    Register {
        key: u64,
        new_key: u64,
        aptpl: bool,
    },
    Reserve {
        key: u64,
        kind: PrType,
    },
    Release {
        key: u64,
        kind: PrType,
    },
    Clear {
        key: u64,
    },
    /// Removes the registrations of other hosts with the key `preempted`. Where `preempted` is 0, under a reservation
    /// of type 7 or 8, it removes those of all other hosts. `kind` is the type of the reservation that the order may
    /// make; None where no reservation has the scope and type of the command block.
    Preempt {
        key: u64,
        preempted: u64,
        kind: Option<PrType>,
    },
    /// As `Register`, whatever key the host is registered with.
    RegisterAndIgnoreExistingKey {
        new_key: u64,
        aptpl: bool,
    },
}

/// The decoder of the parameter list that a host sends with PERSISTENT RESERVE OUT.
pub struct PrList;

fn has_bit(list: &[u8], bit: u32) -> bool
    requires list { 20 < length list.now }
    requires bit { bit < 8 }
    ensures { result ≡ has_bit list.now bit }
{
    list[20] >> bit & 1 == 1
}

fn key_in(list: &[u8]) -> u64
    requires { 8 ≤ length list.now }
    ensures { result ≡ key_in list.now }
{
    BigEndian::read_u64(list)
}

// Whether a bit is set that is refused: SPEC_I_PT, or ALL_TG_PT where the action registers a host.
fn has_refused_bit(action: PrAction, list: &[u8]) -> bool
    requires { 20 < length list.now }
    ensures { result ≡ has_refused_bit action list.now }
{
    let registers = matches!(
        action,
        PrAction::Register | PrAction::RegisterAndIgnoreExistingKey
    );
    has_bit(list, 3) || registers && has_bit(list, 2)
}

// The order of a list of the right length.
fn order_of(action: PrAction, list: &[u8]) -> PrOut
    requires { 20 < length list.now }
    ensures { result ≡ order_of action list.now }
{
    let key = key_in(list);
    let action_key = key_in(&list[8..]);
    let aptpl = has_bit(list, 0);
    match action {
        PrAction::Register => PrOut::Register {
            key,
            new_key: action_key,
            aptpl,
        },
        PrAction::Reserve(kind) => PrOut::Reserve { key, kind },
        PrAction::Release(kind) => PrOut::Release { key, kind },
        PrAction::Clear => PrOut::Clear { key },
        PrAction::Preempt(kind) => PrOut::Preempt {
            key,
            preempted: action_key,
            kind,
        },
        PrAction::RegisterAndIgnoreExistingKey => PrOut::RegisterAndIgnoreExistingKey {
            new_key: action_key,
            aptpl,
        },
    }
}

impl PrList {
    /// Returns the order that this action of a command block and its parameter list make, or the sense data with which
    /// the list is refused. A length other than 24 bytes is refused first (1A/00). Then SPEC_I_PT is refused, and
    /// ALL_TG_PT where the action registers a host (26/00).
    pub fn decode(action: PrAction, list: &[u8]) -> Result<PrOut, Sense>
        ensures { result ≡ list_decoded action list.now }
    {
        if list.len() != PR_LIST_BYTES {
            return Err(Sense::parameter_list_length_error());
        }
        if has_refused_bit(action, list) {
            return Err(Sense::invalid_parameter());
        }
        Ok(order_of(action, list))
    }
}
