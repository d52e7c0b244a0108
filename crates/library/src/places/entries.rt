//! The change that a drive accepted with a command is entered in the ledgers.
ghost use Rattle.std.specs.Prelude.{◌≡◌, ◌≢◌, ◌+◌, ◌^◌, true, false, IfSome};
ghost use Rattle.drive_commands.specs.ShownChanges.{IsChanging, IsWriteError, ShowsWriteError, changes_medium};
ghost use Rattle.drive_commands.specs.Synchronize.{Acknowledges};
ghost use Rattle.library.specs.Inner.Entering.{CanEnter, IsNoRefusal, MayHaveChanged, ShowsNone};

use super::seats::Seat;
use ledgers::{Parties, PartyShare, Tally};
use scsi_opcodes::{Cdb, Command};
use scsi_sense::{Reply, Sense, SenseKey, Status};
use split_bay::Rings;
use std::sync::{Mutex, Wait};

// Whether a command is one that changes the medium: WRITE of some bytes, WRITE FILEMARKS of some, or ERASE.
fn changes_medium(command: Command) -> bool
    ensures { result ≡ changes_medium command }
{
    match command {
        Command::Write { length } => length > 0,
        Command::WriteFilemarks { count, .. } => count > 0,
        Command::Erase => true,
        _ => false,
    }
}

// Whether a reply is no acknowledgement and no write error. Such a reply comes with no change.
fn is_refusal(reply: &Reply) -> bool
    ensures acknowledges { result ≡ true → Acknowledges reply.now → ⊥ }
    ensures write_error { result ≡ true → ShowsWriteError reply.now → ⊥ }
    ensures other { result ≡ false → IsNoRefusal reply.now }
{
    match (reply.status, reply.sense) {
        (Status::Good, _) => false,
        (Status::Check, Some(sense)) => sense.key != SenseKey::NoSense && !is_write_error(sense),
        (Status::Check, None) | (Status::Conflict, _) => true,
    }
}

// Whether sense data report a write error of the command itself.
fn is_write_error(sense: Sense) -> bool
    ensures write_error { result ≡ true → IsWriteError sense }
    ensures other { result ≡ false → IsWriteError sense → ⊥ }
{
    sense.key == SenseKey::MediumError
        && sense.code == 0x0c
        && sense.qualifier == 0
        && !sense.deferred
}

// Whether this is the block of a command that changes the medium.
fn is_changing(cdb: &[u8]) -> bool
    ensures changing { result ≡ true → IsChanging cdb.now }
    ensures other { result ≡ false → IsChanging cdb.now → ⊥ }
{
    match Cdb::decode(cdb) {
        Ok(command) => changes_medium(command),
        Err(_) => false,
    }
}

// Whether the reply to a command shows that no change was made. After a write error it does not.
fn shows_none(cdb: &[u8], reply: &Reply) -> bool
    ensures none { result ≡ true → ShowsNone cdb.now reply.now }
    ensures open { result ≡ false → MayHaveChanged cdb.now reply.now }
{
    if is_changing(cdb) {
        return is_refusal(reply);
    }
    true
}

// Whether a change may have been made by a drive that had counted 2^64 - 1 already: its share can not follow the count.
fn is_past_limit(before: u64, cdb: &[u8], reply: &Reply) -> bool
    ensures within { result ≡ false → CanEnter before cdb.now reply.now }
    ensures past { result ≡ true → (before + 1 ≡ 2 ^ 64) × MayHaveChanged cdb.now reply.now }
{
    before == u64::MAX && !shows_none(cdb, reply)
}

// Waits forever where a change may have been made by a drive that had counted 2^64 - 1 already. Any other answer is
// given.
pub(super) fn wait_at_limit<R: Wait>(rt: &R, before: u64, cdb: &[u8], reply: &Reply)
    ensures { CanEnter before cdb.now reply.now }
{
    if is_past_limit(before, cdb, reply) {
        for _ in rt.forever() {}
        unreachable!()
    }
}

// The same of a half that may have given no answer.
pub(super) fn wait_if_answered<R: Wait>(rt: &R, before: u64, cdb: &[u8], reply: &Option<Reply>)
    ensures { IfSome reply.now (λ reply. CanEnter before cdb.now reply) }
{
    if let Some(reply) = reply {
        wait_at_limit(rt, before, cdb, reply);
    }
}

// Enters a change in both ledgers if a drive's count has risen from one number to another.
pub(super) fn enter_if_risen<B: Parties + Rings, H: Parties, R: Wait>(
    rt: &R,
    tally: &Mutex<Tally<B, H>>,
    share: &mut PartyShare<B>,
    seat: &mut Seat<H>,
    before: u64,
    after: u64,
)
    ensures same { before ≡ after → (share.new ≡ share.old) × (seat.new ≡ seat.old) }
    ensures risen { before ≢ after → (share.new ≡ share.old + 1)
        × (seat.new ≡ record seat.old { amount = seat.old.amount + 1 }) }
{
    if before != after {
        let mut tally = tally.lock(rt);
        seat.enter(rt, &mut tally, share);
    }
}
