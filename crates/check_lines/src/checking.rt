//! The lines that say what two disks hold.
ghost use Rattle.std.specs.Prelude.{◌≡◌, ◌≢◌, ◌<◌, ◌++◌, ◌==◌, ℕ, List, IfOk, IfErr, IfSome, MatchResult, OnOk, Ok, false, filter, is_some, length, position, string_bytes};
ghost use Rattle.std.specs.List.{All};
ghost use Rattle.gate_journal.specs.declared.header.SideKind.TheVariants as Kinds;
ghost use Rattle.gate_journal.specs.Side.{IsName, padded};
ghost use Rattle.cartridge.specs.Contents.{volume_made, IsNoCartridge};
ghost use Rattle.pr_core.specs.States.{power_loss};
ghost use Rattle.aptpl_store.specs.Contents.{latest};
ghost use Rattle.tape_disk.specs.Disk.{Keeps, Only};
ghost use Rattle.tape_disk.specs.Moments.{LeavesOnly};
ghost use Rattle.tape_disk.specs.TwoDisks.{AreHonest, KeepsDisks, MayLeave, TwoLeave, seen_of_two};
ghost use Rattle.gate_journal.specs.Answers.{NoneFailed};
ghost use Rattle.cartridge.specs.Disks.{NoneOfTwo, OnlyOfTwo, UnwrittenTwo};
ghost use Rattle.check_lines.specs.Disks.{both, disks_checked};
ghost use Rattle.check_lines.specs.Reading.{HaveRead, IsNotRead, ReadsEach, wanted_lengths};
ghost use Rattle.check_lines.specs.SideText.{IsNotShown, IsStoreNotShown, SideText, PrintsContents, PrintsStates, bad_record_line, cartridge_line, damaged_line, partition_lines, registrations_in, store_line};

use crate::reading::{ReportsRead, read_wanted};
use aptpl_store::{AptplStore, StoreError, StoreRefused};
use cartridge::{Cartridge, CartridgeError, NotOpened, Shelved};
use pr_core::Reservations;
use std::alloc::{AllocError, Global};
use tape_disk::Disk;
use vtl_base::{Bytes, NoMemory};
use vtl_faults::faults::VtlFault;

/// The lines that say what two disks hold, and the disks.
#[derive(Drop)]
pub struct Checked<D> {
    /// The lines, each with its line feed; or why there are none: `Device` where a disk failed, `NoMemory` where memory
    /// ran out.
    pub lines: Result<Bytes, VtlFault>,
    /// The first disk that was given.
    pub first: D,
    /// The second disk that was given.
    pub second: D,
}

// The place of the first space in a name; None where there is none.
fn first_space(name: &[u8]) -> Option<usize>
    ensures place { result ≡ position (λ byte. byte == 32) name.now }
    ensures bound { IfSome result (λ place. place < length name.now) }
{
    name.iter().position(|byte| *byte == b' ')
}

// The text of a name, without the spaces after it.
fn text_of(name: &[u8]) -> &[u8]
    ensures { (text : List ℕ) → All (λ byte. byte ≢ 32) text → name.now ≡ padded text
        → result.now ≡ text }
{
    match first_space(name) {
        Some(count) => &name[..count],
        None => name,
    }
}

// Adds the line of a cartridge.
fn add_cartridge(
    alloc: Global,
    text: &mut Vec<u8>,
    barcode: &[u8],
    partitions: u8,
    frames: usize,
) -> Result<(), AllocError>
    ensures { OnOk result (text.new.items ≡
        text.old.items ++ cartridge_line barcode.now partitions frames) }
{
    text.extend_from_slice(b"cartridge ")?;
    text.extend_from_slice(barcode)?;
    let counts = format!(in alloc; " partitions {partitions} frames {frames}\n")?;
    text.extend_from_slice(counts.as_bytes())?;
    Ok(())
}

// Adds the lines of a cartridge's partitions.
fn add_partitions<D: Disk>(
    alloc: Global,
    text: &mut Vec<u8>,
    cartridge: &Cartridge<D>,
) -> Result<(), AllocError>
    ensures { OnOk result (text.new.items ≡
        text.old.items ++ partition_lines (volume_made cartridge.now.contents)) }
{
    for part in 0..cartridge.parts() {
        let count = cartridge.count(part);
        let used = cartridge.used(part, count);
        let line = format!(in alloc; "partition {part} objects {count} used {used}\n")?;
        text.extend_from_slice(line.as_bytes())?;
    }
    Ok(())
}

// The lines of an open cartridge.
fn contents_text<D: Disk>(alloc: Global, cartridge: &Cartridge<D>) -> Result<Bytes, NoMemory>
    ensures { IfOk result (λ text. IsName Kinds.Cartridge cartridge.now.contents.head.heading.name
        → PrintsContents cartridge.now.contents text) }
{
    let mut text = Vec::new(alloc);
    let barcode = text_of(cartridge.barcode());
    add_cartridge(
        alloc,
        &mut text,
        barcode,
        cartridge.parts(),
        cartridge.frames(),
    )?;
    add_partitions(alloc, &mut text, cartridge)?;
    Ok(Bytes::from_vec(text))
}

// How many of these places have a key.
fn count_keys(keys: &[Option<u64>]) -> usize
    ensures { result ≡ length (filter is_some keys.now) }
{
    keys.iter().filter(|key| key.is_some()).count()
}

// How many nexuses are registered.
fn registrations(reservations: &Reservations) -> usize
    ensures { result ≡ registrations_in reservations.now }
{
    count_keys(&reservations.state().keys)
}

// Adds the line of a store.
fn add_store(
    alloc: Global,
    text: &mut Vec<u8>,
    name: &[u8],
    frames: usize,
    registrations: usize,
) -> Result<(), AllocError>
    ensures { OnOk result (text.new.items ≡
        text.old.items ++ store_line name.now frames registrations) }
{
    text.extend_from_slice(b"reservations ")?;
    text.extend_from_slice(name)?;
    let counts = format!(in alloc; " frames {frames} registrations {registrations}\n")?;
    text.extend_from_slice(counts.as_bytes())?;
    Ok(())
}

// The line of an open store. A loss of power leaves the reservations `left`.
fn states_text<D: Disk>(
    alloc: Global,
    store: &AptplStore<D>,
    left: &Reservations,
) -> Result<Bytes, NoMemory>
    ensures { IfOk result (λ text. IsName Kinds.Store store.now.heading.name
        → left.now ≡ power_loss (latest store.now.states)
        → PrintsStates store.now.heading store.now.states text) }
{
    let mut text = Vec::new(alloc);
    let name = text_of(store.name());
    add_store(alloc, &mut text, name, store.frames(), registrations(left))?;
    Ok(Bytes::from_vec(text))
}

// A text, or `NoMemory` where memory ran out for it.
fn text_or_fault(text: Result<Bytes, NoMemory>) -> Result<Bytes, VtlFault>
    ensures ok { IfOk result (λ lines. text ≡ Ok lines) }
    ensures err { IfErr result (λ fault. fault ≡ VtlFault.NoMemory) }
{
    Ok(text?)
}

/// Returns the bytes of `line`, the result of formatting a line. The only error is `NoMemory`, where memory ran out for
/// the line (own).
pub fn line_text(line: Result<String, AllocError>) -> Result<Bytes, VtlFault>
    ensures ok { IfOk result (λ text. MatchResult line (λ known. text ≡ string_bytes known) (λ e. ⊥)) }
    ensures err { IfErr result (λ fault. fault ≡ VtlFault.NoMemory) }
{
    match line {
        Ok(text) => Ok(Bytes::from_vec(text.into_bytes())),
        Err(_) => Err(VtlFault::NoMemory),
    }
}

/// Returns the line for a damaged side. A side is the bytes of one file; the gate of its first frame that is not whole
/// is at byte `at`, counted from 0. The only error is `NoMemory` (own).
pub fn damaged_text(alloc: Global, at: u64) -> Result<Bytes, VtlFault>
    ensures ok { IfOk result (λ text. text ≡ damaged_line at) }
    ensures err { IfErr result (λ fault. fault ≡ VtlFault.NoMemory) }
{
    line_text(format!(in alloc; "damaged at {at}\n"))
}

/// Returns the line for a side with a bad frame; the gate of its first bad frame is at byte `at`, counted from 0. A bad
/// frame is whole, but does not spell changes that apply to what the frames before it hold; in a store it does not
/// spell a state. The only error is `NoMemory` (own).
pub fn bad_record_text(alloc: Global, at: u64) -> Result<Bytes, VtlFault>
    ensures ok { IfOk result (λ text. text ≡ bad_record_line at) }
    ensures err { IfErr result (λ fault. fault ≡ VtlFault.NoMemory) }
{
    line_text(format!(in alloc; "bad record at {at}\n"))
}

// The lines of two disks that hold no cartridge of which a side counts: those of a store on the first disk, or why that
// gives no states. The second disk is not called.
fn check_store<D: Disk>(alloc: Global, first: D, second: D) -> Checked<D>
    ensures disk { Keeps (D.state first) (D.state result.first) }
    ensures rests { result.second ≡ second }
    ensures ok { OnOk result.lines (NoneFailed (D.state first) (D.state result.first)) }
    ensures text { IfOk result.lines (λ text. (D.state first).honest → (two : List ℕ) →
        IsNoCartridge ((D.state first).seen, two) → SideText ((D.state first).seen, two) text
        × Only (D.state first).seen (D.state result.first).may_leave) }
    ensures cause { IfErr result.lines (λ fault.
        IsStoreNotShown fault (D.state first) (D.state result.first)) }
    ensures any_moment { (D.state first).honest →
        LeavesOnly (D.state first) (D.state result.first) (D.state first).may_leave }
{
    match AptplStore::open(alloc, first) {
        Ok((store, left)) => {
            let lines = text_or_fault(states_text(alloc, &store, &left));
            let first = store.close();
            Checked {
                lines,
                first,
                second,
            }
        }
        Err(refused) => {
            let StoreRefused { error, disk } = refused;
            let lines = match error {
                StoreError::NotOurs => line_text(format!(in alloc; "not a side\n")),
                StoreError::Damaged { at } => damaged_text(alloc, at),
                StoreError::BadRecord { at } => bad_record_text(alloc, at),
                StoreError::Device(_) => Err(VtlFault::Device),
                StoreError::NoMemory => Err(VtlFault::NoMemory),
            };
            Checked {
                lines,
                first: disk,
                second,
            }
        }
    }
}

// The lines of a cartridge that was opened, and its disks. If there are `reports`, each of its blocks is read to its
// end first.
fn check_cartridge<D: Disk, P: ReportsRead>(
    alloc: Global,
    cartridge: Cartridge<D>,
    reports: Option<&P>,
) -> Checked<D>
    requires { cartridge.failed ≡ false }
    ensures disks { KeepsDisks D.state cartridge.disks (disks_checked result) }
    ensures ok { OnOk result.lines (NoneOfTwo D.state cartridge.disks (disks_checked result)) }
    ensures text { IfOk result.lines (λ text. IsName Kinds.Cartridge cartridge.contents.head.heading.name
        → PrintsContents cartridge.contents text) }
    ensures cause { IfErr result.lines (λ fault.
        IsNotRead D.state fault cartridge.disks (disks_checked result)) }
    ensures unwritten { AreHonest D.state cartridge.disks →
        UnwrittenTwo D.state cartridge.disks (disks_checked result) }
    ensures read { OnOk result.lines (ReadsEach D.effect cartridge.contents.which
        (wanted_lengths (is_some reports.entry) cartridge.contents) cartridge.disks (disks_checked result)) }
{
    let mut cartridge = cartridge;
    let lines = match read_wanted(alloc, &mut cartridge, reports) {
        Ok(()) => text_or_fault(contents_text(alloc, &cartridge)),
        Err(fault) => Err(fault),
    };
    let (first, second) = cartridge.shelve().into_disks();
    Checked {
        lines,
        first,
        second,
    }
}

/// Returns the lines of `vtl check` for two disks. For a cartridge, they say its barcode, its numbers of partitions and
/// frames, and for each partition how many objects it has and how many bytes of its capacity these use. For a store of
/// reservations, they say its name, its number of frames, and how many nexuses are registered after a loss of power.
/// Otherwise they say why the disks give neither. Both disks are opened as a cartridge; if no side of a cartridge
/// counts, the first disk is opened as a store. Each opening begins with a sync and writes nothing. So if the disks are
/// honest, a crash at any moment leaves only what it might have left before, even where an error is returned. If there
/// are `reports`, each block of a cartridge is read to its end, and they say how far that is; without them, blocks of
/// more than 65,536 bytes are passed over.
pub fn check_side<D: Disk, P: ReportsRead>(
    alloc: Global,
    first: D,
    second: D,
    reports: Option<&P>,
) -> Checked<D>
    ensures disks { KeepsDisks D.state (both first second) (disks_checked result) }
    ensures ok { OnOk result.lines (NoneOfTwo D.state (both first second) (disks_checked result)) }
    ensures text { IfOk result.lines (λ text. AreHonest D.state (both first second) →
        SideText (seen_of_two D.state (both first second)) text
        × OnlyOfTwo D.state (both first second) (disks_checked result)) }
    ensures read { OnOk result.lines (AreHonest D.state (both first second) →
        HaveRead D.state D.effect (is_some reports.entry) (both first second) (disks_checked result)) }
    ensures cause { IfErr result.lines (λ fault.
        IsNotShown D.state fault (both first second) (disks_checked result)) }
    ensures any_moment { AreHonest D.state (both first second) →
        TwoLeave D.state (both first second) (disks_checked result) (MayLeave D.state (both first second)) }
{
    match Cartridge::open(alloc, Shelved::of(first, second)) {
        Ok(cartridge) => check_cartridge(alloc, cartridge, reports),
        Err(refused) => {
            let NotOpened { error, shelved } = refused;
            let (first, second) = shelved.into_disks();
            let lines = match error {
                CartridgeError::NotOurs => return check_store(alloc, first, second),
                CartridgeError::Damaged { at } => damaged_text(alloc, at),
                CartridgeError::BadRecord { at } => bad_record_text(alloc, at),
                CartridgeError::Device(_) => Err(VtlFault::Device),
                CartridgeError::NoMemory => Err(VtlFault::NoMemory),
                CartridgeError::SideFull | CartridgeError::Failed => unreachable!(),
            };
            Checked {
                lines,
                first,
                second,
            }
        }
    }
}
