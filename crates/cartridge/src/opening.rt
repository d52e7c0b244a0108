//! Opening a closed cartridge: the side that counts is found, and the bodies of its frames are read once, in pieces.
//! Most bytes of long blocks are not read.
ghost use Rattle.std.specs.Prelude.{◌≡◌, [], IfOk, IfErr, false};
ghost use Rattle.tape_disk.specs.TwoDisks.{AreHonest, KeepsDisks, MayLeave, TwoLeave, seen_of_two};
ghost use Rattle.cartridge.specs.Answers.{IsNotOpened, disks_begun, disks_opened};
ghost use Rattle.cartridge.specs.Contents.{GivesContents};
ghost use Rattle.cartridge.specs.Disks.{EachOpened, EachStays, NoneOfTwo, OnlyOfTwo, OpensEach};
ghost use Rattle.cartridge.specs.Inner.Opening.{HasSide, disks_found};

use crate::cartridges::Cartridge;
use crate::error::{CartridgeError, NotOpened};
use crate::openings::Opening;
use crate::recovering::Recovered;
use crate::shelved::Shelved;
use crate::sides::{apart, in_order};
use cartridge_sides::{Which, choose};
use gate_journal::{Frame, Journal, NotDecoded};
use std::alloc::Global;
use tape_disk::Disk;

// Two disks that were not opened as a cartridge, and why.
#[derive(Drop)]
struct Unopened<D> {
    error: CartridgeError,
    first: D,
    second: D,
}

impl<D: Disk> Cartridge<D> {
    /// Opens a closed cartridge, from the side that counts. The call begins with a sync of both disks, and writes
    /// nothing: it makes no call but syncs, and reads of at most 65,536 bytes, and none behind one of these two syncs
    /// that failed. At every moment of the call, and after every error, a crash leaves only what it might have left
    /// before; this holds for an honest disk (one that keeps the promises of a disk) beside a dishonest one too. Where
    /// both are honest, a crash after any result but `Device` leaves just what a read would have returned before the
    /// call. With an error the cartridge is returned closed, as it was.
    pub fn open(alloc: Global, shelved: Shelved<D>) -> Result<Cartridge<D>, NotOpened<D>>
        ensures disks { KeepsDisks D.state shelved.disks (disks_opened result) }
        ensures ok { IfOk result (λ cartridge. (cartridge.failed ≡ false) × (cartridge.torn ≡ [])
            × NoneOfTwo D.state shelved.disks cartridge.disks) }
        ensures gives { IfOk result (λ cartridge. AreHonest D.state shelved.disks →
            GivesContents cartridge.contents (seen_of_two D.state shelved.disks)
            × OnlyOfTwo D.state shelved.disks cartridge.disks) }
        ensures refused { IfErr result (λ refused.
            IsNotOpened D.state refused.error shelved.disks refused.shelved.disks) }
        ensures same { IfErr result (λ refused.
            refused.shelved ≡ record shelved { disks = refused.shelved.disks }) }
        ensures any_moment { AreHonest D.state shelved.disks →
            TwoLeave D.state shelved.disks (disks_opened result) (MayLeave D.state shelved.disks) }
        ensures each { EachOpened D.state D.effect shelved.disks (disks_opened result) }
    {
        match Opening::of(alloc, shelved) {
            Ok(opening) => Ok(opening.keep()),
            Err(refused) => Err(refused),
        }
    }
}

impl<D: Disk> Opening<D> {
    /// Opens a closed cartridge, as `Cartridge::open` does, so that it may be closed again as it was.
    pub fn of(alloc: Global, shelved: Shelved<D>) -> Result<Opening<D>, NotOpened<D>>
        ensures disks { KeepsDisks D.state shelved.disks (disks_begun result) }
        ensures ok { IfOk result (λ opening. (opening.cartridge.failed ≡ false)
            × (opening.cartridge.torn ≡ []) × NoneOfTwo D.state shelved.disks opening.cartridge.disks
            × (opening.was ≡ record shelved { disks = opening.cartridge.disks })) }
        ensures gives { IfOk result (λ opening. AreHonest D.state shelved.disks →
            GivesContents opening.cartridge.contents (seen_of_two D.state shelved.disks)
            × OnlyOfTwo D.state shelved.disks opening.cartridge.disks) }
        ensures refused { IfErr result (λ refused.
            IsNotOpened D.state refused.error shelved.disks refused.shelved.disks) }
        ensures same { IfErr result (λ refused.
            refused.shelved ≡ record shelved { disks = refused.shelved.disks }) }
        ensures any_moment { AreHonest D.state shelved.disks →
            TwoLeave D.state shelved.disks (disks_begun result) (MayLeave D.state shelved.disks) }
        ensures each { EachOpened D.state D.effect shelved.disks (disks_begun result) }
    {
        let Shelved {
            first,
            second,
            known,
            which,
            copied,
            noted,
        } = shelved;
        match open_disks(alloc, first, second) {
            Ok(cartridge) => Ok(Opening {
                cartridge,
                known,
                which,
                copied,
                noted,
            }),
            Err(refused) => {
                let Unopened {
                    error,
                    first,
                    second,
                } = refused;
                let shelved = Shelved {
                    first,
                    second,
                    known,
                    which,
                    copied,
                    noted,
                };
                Err(NotOpened { error, shelved })
            }
        }
    }
}

// Opens the side that counts of two disks.
fn open_disks<D: Disk>(alloc: Global, first: D, second: D) -> Result<Cartridge<D>, Unopened<D>>
    ensures disks { KeepsDisks D.state (record { first = first; second = second }) (disks_found result) }
    ensures ok { IfOk result (λ cartridge. (cartridge.failed ≡ false) × (cartridge.torn ≡ [])
        × NoneOfTwo D.state (record { first = first; second = second }) cartridge.disks) }
    ensures gives { IfOk result (λ cartridge.
        AreHonest D.state (record { first = first; second = second }) →
        GivesContents cartridge.contents (seen_of_two D.state (record { first = first; second = second }))
        × OnlyOfTwo D.state (record { first = first; second = second }) cartridge.disks) }
    ensures refused { IfErr result (λ refused.
        IsNotOpened D.state refused.error (record { first = first; second = second })
        (record { first = refused.first; second = refused.second })) }
    ensures any_moment { AreHonest D.state (record { first = first; second = second }) →
        TwoLeave D.state (record { first = first; second = second }) (disks_found result)
        (MayLeave D.state (record { first = first; second = second })) }
    ensures each { EachOpened D.state D.effect (record { first = first; second = second }) (disks_found result) }
{
    let mut first = first;
    let mut second = second;
    match choose(&mut first, &mut second) {
        Ok(Some(counted)) => open_side(alloc, counted.which, first, second),
        Ok(None) => Err(Unopened {
            error: CartridgeError::NotOurs,
            first,
            second,
        }),
        Err(fault) => Err(Unopened {
            error: CartridgeError::Device(fault),
            first,
            second,
        }),
    }
}

// Opens the side that counts.
fn open_side<D: Disk>(
    alloc: Global,
    which: Which,
    first: D,
    second: D,
) -> Result<Cartridge<D>, Unopened<D>>
    requires { AreHonest D.state (record { first = first; second = second }) →
        HasSide which (seen_of_two D.state (record { first = first; second = second }))
        × OnlyOfTwo D.state (record { first = first; second = second })
        (record { first = first; second = second }) }
    ensures disks { KeepsDisks D.state (record { first = first; second = second }) (disks_found result) }
    ensures ok { IfOk result (λ cartridge. (cartridge.failed ≡ false) × (cartridge.torn ≡ [])
        × NoneOfTwo D.state (record { first = first; second = second }) cartridge.disks) }
    ensures gives { IfOk result (λ cartridge.
        AreHonest D.state (record { first = first; second = second }) →
        GivesContents cartridge.contents (seen_of_two D.state (record { first = first; second = second }))
        × OnlyOfTwo D.state (record { first = first; second = second }) cartridge.disks) }
    ensures refused { IfErr result (λ refused.
        IsNotOpened D.state refused.error (record { first = first; second = second })
        (record { first = refused.first; second = refused.second })) }
    ensures any_moment { AreHonest D.state (record { first = first; second = second }) →
        TwoLeave D.state (record { first = first; second = second }) (disks_found result)
        (MayLeave D.state (record { first = first; second = second })) }
    ensures each { EachStays D.state (record { first = first; second = second }) (disks_found result) }
    ensures reads { OpensEach D.effect (record { first = first; second = second }) (disks_found result) }
{
    let (counts, spare) = apart(which, first, second);
    match Journal::open_decoded::<Recovered>(alloc, counts, 0) {
        Ok((journal, recovered)) => {
            // Called for the proof: over any disk there are as many frames as the copy has.
            journal.known();
            Ok(Cartridge {
                journal,
                spare,
                which,
                index: recovered.index,
                frame: Frame::new(alloc),
                noted: recovered.noted,
            })
        }
        Err(refused) => {
            let NotDecoded { error, disk } = refused;
            let (first, second) = in_order(which, disk, spare);
            Err(Unopened {
                error: CartridgeError::from(error),
                first,
                second,
            })
        }
    }
}
