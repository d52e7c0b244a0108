//! Writing bytes over others, in place.
ghost use Rattle.std.specs.Prelude.{◌≡◌, ◌+◌, ◌-◌, ◌≤◌, ℕ, length, vec_len, vec_capacity, OnOk, OnErr, IsOk};
ghost use Rattle.tape_disk.specs.Disk.{overwritten};

use std::alloc::AllocError;

/// Writes `new` over the bytes from `at` on, or at their end where that comes before `at`. It takes memory only for
/// bytes past the end; if memory runs out, the bytes are as before.
pub(crate) fn overwrite(bytes: &mut Vec<u8>, at: usize, new: &[u8]) -> Result<(), AllocError>
    ensures ok { OnOk result (bytes.new.items ≡ overwritten at new.now bytes.old.items) }
    ensures err { OnErr result (bytes.new.items ≡ bytes.old.items) }
    ensures fits { vec_len bytes.old + (length new.now - (vec_len bytes.old - at))
        ≤ vec_capacity bytes.old → IsOk result }
{
    let place = at.min(bytes.len());
    let within = new.len().min(bytes.len() - place);
    bytes.extend_from_slice(&new[within..])?;
    bytes[place..place + within].copy_from_slice(&new[..within]);
    Ok(())
}
