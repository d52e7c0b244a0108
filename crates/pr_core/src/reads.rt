//! The data of PERSISTENT RESERVE IN.
ghost use Rattle.std.specs.Prelude.{◌≡◌, ◌++◌, ◌+◌, ◌≤◌, ◌*◌, [], length, take, IfOk, IsOk};
ghost use Rattle.std.specs.List.{flat_map};
ghost use Rattle.arrayvec.specs.ArrayVec.{array_vec_len};
ghost use Rattle.vtl_base.specs.declared.limits.TheConstants.{NEXUSES};
ghost use Rattle.pr_core.specs.declared.reads.TheConstants.{MAX_READ};
ghost use Rattle.pr_core.specs.Reads.{headed, holder_key, key_bytes, keys_read, reservation_bytes, reservation_read};

use crate::states::{PrState, Reservation};
use arrayvec::ArrayVec;
use std::alloc::Global;
use vtl_base::{Bytes, Nexus, NoMemory};

// The length of READ KEYS where each nexus is registered, which no data exceeds. The data is built in an
// array of this length, so building it takes no memory.
const MAX_READ: usize = 520;

// Appends bytes to the row.
fn push(row: &mut ArrayVec<u8, MAX_READ>, bytes: &[u8])
    requires { array_vec_len row.old + length bytes.now ≤ MAX_READ }
    ensures { row.new.items ≡ row.old.items ++ bytes.now }
{
    match row.try_extend_from_slice(bytes) {
        Ok(()) => {}
        Err(_) => unreachable!(),
    }
}

// Appends the bytes of a key, if there is one.
fn push_key(row: &mut ArrayVec<u8, MAX_READ>, key: Option<u64>)
    requires { array_vec_len row.old + 8 ≤ MAX_READ }
    ensures { row.new.items ≡ row.old.items ++ key_bytes key }
{
    if let Some(key) = key {
        push(row, &key.to_be_bytes());
    }
}

// Appends the bytes of all keys.
fn push_keys(row: &mut ArrayVec<u8, MAX_READ>, keys: &[Option<u64>])
    requires { array_vec_len row.old + 8 * length keys.now ≤ MAX_READ }
    ensures { row.new.items ≡ row.old.items ++ flat_map key_bytes keys.now }
{
    for key in keys {
        push_key(row, *key);
    }
}

// The first `room` bytes of generation, length and `rest`. It takes memory only for more than 24 bytes.
fn cut_headed(alloc: Global, generation: u32, rest: &[u8], room: usize) -> Result<Bytes, NoMemory>
    requires { 8 + length rest.now ≤ MAX_READ }
    ensures bytes { IfOk result (λ bytes. bytes ≡ take room (headed generation rest.now)) }
    ensures few { length (take room (headed generation rest.now)) ≤ 24 → IsOk result }
{
    let mut row = ArrayVec::<u8, MAX_READ>::new();
    push(&mut row, &generation.to_be_bytes());
    let length = rest.len() as u32;
    push(&mut row, &length.to_be_bytes());
    push(&mut row, rest);
    let bytes = row.as_slice();
    Bytes::from_slice(alloc, &bytes[..room.min(bytes.len())])
}

// The data of READ KEYS, cut to `room` bytes.
pub(crate) fn keys_read(alloc: Global, state: &PrState, room: usize) -> Result<Bytes, NoMemory>
    requires { length state.now.keys ≡ NEXUSES }
    ensures bytes { IfOk result (λ bytes. bytes ≡ take room (keys_read state.now)) }
    ensures few { length (take room (keys_read state.now)) ≤ 24 → IsOk result }
{
    let mut keys = ArrayVec::new();
    push_keys(&mut keys, &state.keys);
    cut_headed(alloc, state.generation, keys.as_slice(), room)
}

// The key of the named holder, or 0 where no holder is named.
fn holder_key(holder: Option<Nexus>, state: &PrState) -> u64
    ensures { result ≡ holder_key holder state.now }
{
    match holder {
        Some(nexus) => state.key_of(nexus).unwrap_or(0),
        None => 0,
    }
}

// The 16 bytes of a reservation.
fn reservation_bytes(held: &Reservation, state: &PrState) -> [u8; 16]
    ensures { result ≡ reservation_bytes (Some held.now) state.now }
{
    let [a, b, c, d, e, f, g, h] = holder_key(held.holder, state).to_be_bytes();
    [
        a,
        b,
        c,
        d,
        e,
        f,
        g,
        h,
        0,
        0,
        0,
        0,
        0,
        held.kind.number(),
        0,
        0,
    ]
}

// The data of READ RESERVATION, cut to `room` bytes.
pub(crate) fn reservation_read(
    alloc: Global,
    state: &PrState,
    room: usize,
) -> Result<Bytes, NoMemory>
    ensures bytes { IfOk result (λ bytes. bytes ≡ take room (reservation_read state.now)) }
    ensures few { length (take room (reservation_read state.now)) ≤ 24 → IsOk result }
{
    match &state.reservation {
        Some(held) => cut_headed(
            alloc,
            state.generation,
            &reservation_bytes(held, state),
            room,
        ),
        None => cut_headed(alloc, state.generation, &[], room),
    }
}
