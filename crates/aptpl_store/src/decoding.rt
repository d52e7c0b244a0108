//! The state that a body spells, if it spells one.
ghost use Rattle.std.specs.Prelude.{◌≡◌, ◌≤◌, length, IfSome, IfNone};
ghost use Rattle.pr_core.specs.declared.states.PrState.{PrState};
ghost use Rattle.aptpl_store.specs.Spelling.{SpellsState};
ghost use Rattle.aptpl_store.specs.Inner.Decoded.{begins_with, behind, held_decoded, key_decoded, keys_decoded, nexus_decoded, nexuses_from, state_decoded};
ghost use Rattle.scsi_lists.specs.Actions.{type_of};
ghost use Rattle.vtl_base.specs.declared.layout.TheConstants.{STATE_BYTES, STATE_HEAD};

use crate::spelling::fill_body;
use byteorder::{BigEndian, ByteOrder};
use gate_journal::Frame;
use pr_core::{PrState, Reservation, Reservations};
use scsi_lists::PrType;
use vtl_base::Nexus;
use vtl_base::layout::{REGISTRATION_BYTES, STATE_BYTES, STATE_HEAD};
use vtl_base::limits::NEXUSES;

// Whether the bytes begin with the registration of a nexus.
fn begins_with(number: u8, bytes: &[u8]) -> bool
    ensures { result ≡ begins_with number bytes.now }
{
    bytes.len() >= REGISTRATION_BYTES && bytes[0] == number
}

// The key of a nexus, where the bytes begin with its registration, and the bytes after that.
fn key_decoded(number: u8, bytes: &[u8]) -> (Option<u64>, &[u8])
    ensures key { result.0 ≡ key_decoded number bytes.now }
    ensures behind { result.1.now ≡ behind number bytes.now }
{
    if begins_with(number, bytes) {
        (
            Some(BigEndian::read_u64(&bytes[1..])),
            &bytes[REGISTRATION_BYTES..],
        )
    } else {
        (None, bytes)
    }
}

// The keys of all nexuses, in rising order. The bytes hold registrations in that order, and a nexus may have none.
fn keys_decoded(bytes: &[u8]) -> [Option<u64>; 64]
    ensures { result ≡ keys_decoded (nexuses_from 1) bytes.now }
{
    let mut keys = [None; 64];
    let mut rest = bytes;
    for number in 1..=NEXUSES {
        let (key, behind) = key_decoded(number, rest);
        keys[number as usize - 1] = key;
        rest = behind;
    }
    keys
}

// A reservation of this type, if there is one, with this holder, if there is one.
fn held_decoded(kind: u8, holder: u8) -> Option<Reservation>
    ensures { result ≡ held_decoded (type_of kind) (nexus_decoded holder) }
{
    Some(Reservation {
        kind: PrType::of(kind)?,
        holder: Nexus::new(holder),
    })
}

// The state that a body of at least four bytes would spell.
fn state_decoded(body: &[u8]) -> PrState
    requires { STATE_HEAD ≤ length body.now }
    ensures { result ≡ state_decoded body.now }
{
    PrState {
        keys: keys_decoded(&body[STATE_HEAD..]),
        reservation: held_decoded(body[1], body[2]),
        aptpl: body[0] == 1,
        generation: 0,
    }
}

// The reservations that a body spells, or None where it spells none: those that it would spell, if their spelling is
// the body itself.
pub(crate) fn decode(body: &[u8], spelled: &mut Frame) -> Option<Reservations>
    requires room { STATE_BYTES ≤ spelled.old.room }
    ensures some { IfSome result (λ reservations. SpellsState reservations body.now) }
    ensures none { IfNone result ((state : PrState) → SpellsState state body.now → ⊥) }
    ensures room { spelled.old.room ≤ spelled.new.room }
{
    if body.len() < STATE_HEAD {
        return None;
    }
    let reservations = Reservations::of(state_decoded(body))?;
    fill_body(spelled, reservations.state());
    if spelled.body() != body {
        return None;
    }
    Some(reservations)
}
