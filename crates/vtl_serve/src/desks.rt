//! The desk, which serves moves and inventories in a library that threads share.
ghost use Rattle.std.specs.Prelude.{◌≡◌, ◌<◌, ◌+◌, ◌++◌, ◌∷◌, [], true, IfOk, OnOk, flat_map, map};
ghost use Rattle.std.specs.List.{range_with_len};
ghost use Rattle.vtl_base.specs.declared.limits.TheConstants.{DRIVES, FIRST_SLOT, SLOTS};
ghost use Rattle.vtl_serve.specs.Desks.{AnswersDesk, TakesMemory, is_served, labels_after};
ghost use Rattle.vtl_serve.specs.Labels.{drive_entry, inventory_of, entry_at};

use crate::labels::Labels;
use ledgers::Parties;
use library::{Library, Operator, Rings};
use scsi_sense::Status;
use std::alloc::Global;
use std::marker::Model;
use std::sync::Wait;
use tape_disk::Disk;
use vtl_base::limits::{DRIVES, FIRST_SLOT, SLOTS};
use vtl_base::{DriveNo, NoMemory};
use vtl_hosts::Desk;
use vtl_wire::{Answer, Entries, Entry, Request};

/// The desk of a library: it serves moves and inventories, the requests that belong to no host. A contract sees which
/// drives there are, where each cartridge is, and how many moves the operator made.
#[derive(Drop)]
pub struct LibraryDesk<'a, D: Disk, B: Parties + Rings, H: Parties, R> {
    rt: &'a R,
    library: &'a Library<D, B, H>,
    operator: Operator<H>,
    labels: Labels,
}

impl<'a, D: Disk, B: Parties + Rings, H: Parties, R> Model for LibraryDesk<'a, D, B, H, R> {
    ghost use Rattle.vtl_serve.specs.Desks.{DeskState};

    ghost Value = { DeskState };

    ghost view = { λ d. record { drives = d.library.now; labels = d.labels; moved = d.operator } };
}

// Adds the entry of an element address.
fn add_entry(labels: &Labels, address: u32, entries: &mut Vec<Entry>) -> Result<(), NoMemory>
    ensures { OnOk result (entries.new.items ≡ entries.old.items ++ entry_at labels.now address ∷ []) }
{
    let barcode = labels.barcode_at(address);
    match entries.push(Entry { address, barcode }) {
        Ok(()) => Ok(()),
        Err(_) => Err(NoMemory),
    }
}

// Adds the entry of the drive with this place, counted from 0, if the drive is configured.
fn add_drive<D: Disk + Drop, B: Parties + Rings, H: Parties>(
    library: &Library<D, B, H>,
    labels: &Labels,
    place: u8,
    entries: &mut Vec<Entry>,
) -> Result<(), NoMemory>
    requires { place < DRIVES }
    ensures { OnOk result (entries.new.items
        ≡ entries.old.items ++ drive_entry library.now labels.now (place + 1)) }
{
    let drive = DriveNo::new(place + 1).unwrap();
    if !library.configured(drive) {
        return Ok(());
    }
    add_entry(labels, u32::from(drive.number()), entries)
}

// Adds the entry of each configured drive.
fn add_drives<D: Disk + Drop, B: Parties + Rings, H: Parties>(
    library: &Library<D, B, H>,
    labels: &Labels,
    entries: &mut Vec<Entry>,
) -> Result<(), NoMemory>
    ensures { OnOk result (entries.new.items
        ≡ entries.old.items ++ flat_map (drive_entry library.now labels.now) (range_with_len 1 DRIVES)) }
{
    for place in 0..DRIVES {
        add_drive(library, labels, place, entries)?;
    }
    Ok(())
}

// Adds the entry of each slot.
fn add_slots(labels: &Labels, entries: &mut Vec<Entry>) -> Result<(), NoMemory>
    ensures { OnOk result (entries.new.items
        ≡ entries.old.items ++ map (entry_at labels.now) (range_with_len FIRST_SLOT SLOTS)) }
{
    for place in 0..SLOTS {
        add_entry(labels, u32::from(FIRST_SLOT) + u32::from(place), entries)?;
    }
    Ok(())
}

// The entries of all configured drives, and of all slots.
fn inventory_of<D: Disk + Drop, B: Parties + Rings, H: Parties>(
    alloc: Global,
    library: &Library<D, B, H>,
    labels: &Labels,
) -> Result<Entries, NoMemory>
    ensures { IfOk result (λ entries. entries ≡ inventory_of library.now labels.now) }
{
    let mut entries = Vec::new(alloc);
    add_drives(library, labels, &mut entries)?;
    add_slots(labels, &mut entries)?;
    Ok(Entries::from_vec(entries))
}

impl<'a, D: Disk + Drop, B: Parties + Rings, H: Parties, R> LibraryDesk<'a, D, B, H, R> {
    /// The desk of this library, whose cartridges are where `labels` says. It moves as the operator.
    pub fn new(
        rt: &'a R,
        library: &'a Library<D, B, H>,
        operator: Operator<H>,
        labels: Labels,
    ) -> LibraryDesk<'a, D, B, H, R>
        ensures { result ≡ record { drives = library.now; labels = labels; moved = operator } }
    {
        LibraryDesk {
            rt,
            library,
            operator,
            labels,
        }
    }

    /// Returns the operator's token.
    pub(crate) fn into_operator(self) -> Operator<H>
        ensures { result ≡ self.entry.moved }
    {
        self.operator
    }
}

impl<'a, D: Disk + Drop, B: Parties + Rings, H: Parties, R: Wait> Desk
    for LibraryDesk<'a, D, B, H, R> {
    ghost is_taken = { λ desk request. is_served desk.drives request };

    ghost answers = { AnswersDesk D.state };

    ghost lacks = { λ desk request. TakesMemory request };

    fn takes(&self, request: &Request) -> bool {
        match request {
            Request::Command { drive, .. } => self.library.configured(*drive),
            Request::Move { .. } | Request::Inventory { .. } => true,
        }
    }

    fn serve(&mut self, alloc: Global, request: Request) -> Result<Answer, NoMemory> {
        match request {
            Request::Move { from, to, tag } => {
                let rt = self.rt;
                let library = self.library;
                let reply = library.move_medium(rt, &mut self.operator, from, to);
                note_move(&mut self.labels, reply.status, from, to);
                Ok(Answer::Move { reply, tag })
            }
            Request::Inventory { tag } => {
                let library = self.library;
                let entries = inventory_of(alloc, library, &self.labels)?;
                Ok(Answer::Inventory { entries, tag })
            }
            Request::Command { host, .. } => {
                let _ = host.number();
                unreachable!()
            }
        }
    }
}

// Notes where the cartridge is after a move with this status.
fn note_move(labels: &mut Labels, status: Status, from: u32, to: u32)
    ensures { labels.new ≡ labels_after status from to labels.old }
{
    match status {
        Status::Good => labels.carry(from, to),
        Status::Check | Status::Conflict => {}
    }
}
