//! How a state is spelled in the body of a frame (own). Places are in bytes, and numbers are big-endian.
//!
//! | Place | Content |
//! |---|---|
//! | 0 | APTPL, 0 or 1 |
//! | 1 | the type of the reservation; 0 where there is none |
//! | 2 | the nexus of its holder; 0 where there is no reservation, and for types 7 and 8 |
//! | 3 | how many nexuses are registered |
//! | 4 + 9N | the nexus of registration N; these rise, and N counts from 0 |
//! | 5 + 9N | the key of registration N, 8 bytes, not 0 |
ghost use Rattle.std.specs.Prelude.{◌≡◌, ◌≤◌, ◌+◌, ◌++◌, count_by, is_some, length};
ghost use Rattle.vtl_base.specs.declared.limits.TheConstants.{NEXUSES};
ghost use Rattle.pr_core.specs.Sound.{IsSound};
ghost use Rattle.aptpl_store.specs.Spelling.{IsKey, IsSavable, aptpl_byte, holder_byte, registration, spell_state, type_byte};
ghost use Rattle.vtl_base.specs.declared.layout.TheConstants.{REGISTRATION_BYTES, STATE_BYTES};

use gate_journal::Frame;
use pr_core::{PrState, Reservation};
use vtl_base::limits::NEXUSES;

fn aptpl_byte(aptpl: bool) -> u8
    ensures { result ≡ aptpl_byte aptpl }
{
    if aptpl { 1 } else { 0 }
}

fn type_byte(reservation: &Option<Reservation>) -> u8
    ensures { result ≡ type_byte reservation.now }
{
    match reservation {
        Some(held) => held.kind.number(),
        None => 0,
    }
}

fn holder_byte(reservation: &Option<Reservation>) -> u8
    ensures { result ≡ holder_byte reservation.now }
{
    match reservation {
        Some(held) => match held.holder {
            Some(nexus) => nexus.number(),
            None => 0,
        },
        None => 0,
    }
}

// How many nexuses are registered.
fn registered(keys: &[Option<u64>]) -> u8
    requires { length keys.now ≡ NEXUSES }
    ensures { result ≡ count_by is_some keys.now }
{
    let mut count = 0;
    for key in keys {
        if key.is_some() {
            count += 1;
        }
    }
    count
}

// Appends the registration of a nexus, if it has a key, to the body of a frame that has room for it.
fn push_registration(frame: &mut Frame, number: u8, key: Option<u64>)
    requires room { length frame.old.body + REGISTRATION_BYTES ≤ frame.old.room }
    ensures body { frame.new.body ≡ frame.old.body ++ registration key number }
    ensures key { IsKey key }
    ensures room { frame.old.room ≤ frame.new.room }
{
    let Some(key) = key else { return };
    frame.extend_reserved(&[number]);
    frame.extend_reserved(&key.to_be_bytes());
}

// Spells a state in a frame that has room for it, and nothing else.
pub(crate) fn fill_body(frame: &mut Frame, state: &PrState)
    requires room { STATE_BYTES ≤ frame.old.room }
    requires sound { IsSound state.now }
    ensures body { frame.new.body ≡ spell_state state.now }
    ensures savable { IsSavable state.now }
    ensures room { frame.old.room ≤ frame.new.room }
{
    frame.clear();
    frame.extend_reserved(&[
        aptpl_byte(state.aptpl),
        type_byte(&state.reservation),
        holder_byte(&state.reservation),
        registered(&state.keys),
    ]);
    for number in 1..=NEXUSES {
        push_registration(frame, number, state.keys[number as usize - 1]);
    }
}
