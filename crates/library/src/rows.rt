//! A row of drives: in it a library gets its drives, and in it they are returned at the end.
ghost use Rattle.std.specs.Prelude.{◌≡◌, ◌<◌, None, Some, length, slice_index_or, slice_set};
ghost use Rattle.vtl_base.specs.declared.limits.TheConstants.{DRIVES};
ghost use Rattle.library.specs.Counts.{count_of_drive};

use bay_moves::Bay;
use std::marker::Model;
use std::mem::replace;
use tape_disk::Disk;

/// One place for each drive number, from 1 to 16, with the drive if there is one.
#[derive(Drop)]
pub(crate) struct Row<D: Disk> {
    places: Vec<Option<Bay<D>>>,
}

impl<D: Disk> Model for Row<D> {
    ghost use Rattle.std.specs.Prelude.{◌≡◌, List, Option, length};
    ghost use Rattle.vtl_base.specs.declared.limits.TheConstants.{DRIVES};
    ghost use Rattle.bay_moves.specs.Elements.{BayState};

    ghost Value = { List (Option (BayState D)) };

    ghost view = { λ r. r.places.items };

    ghost invariant = { λ r. length r.places.items ≡ DRIVES };
}

impl<D: Disk + Drop> Row<D> {
    pub(crate) fn of(places: Vec<Option<Bay<D>>>) -> Row<D>
        requires { length places.items ≡ DRIVES }
        ensures { result ≡ places.items }
    {
        Row { places }
    }

    // There is a place for each drive: the type's invariant.
    pub(crate) fn known(&self)
        ensures { length self.now ≡ DRIVES }
    {
        // Read for the proof.
        let _ = &self.places;
    }

    // Takes the drive, if there is one, out of this place.
    pub(crate) fn take(&mut self, place: usize) -> Option<Bay<D>>
        requires { place < DRIVES }
        ensures out { result ≡ slice_index_or self.old place None }
        ensures left { self.new ≡ slice_set self.old place None }
    {
        self.places[place].take()
    }

    // Puts a drive, or none, into this place.
    pub(crate) fn put(&mut self, place: usize, bay: Option<Bay<D>>)
        requires { place < DRIVES }
        ensures { self.new ≡ slice_set self.old place bay }
    {
        drop(replace(&mut self.places[place], bay));
    }

    // The count of changes of the drive in this place; None where there is no drive.
    pub(crate) fn count(&self, place: usize) -> Option<u64>
        requires { place < DRIVES }
        ensures { result ≡ count_of_drive (slice_index_or self.now place None) }
    {
        match &self.places[place] {
            Some(bay) => Some(bay.accepted()),
            None => None,
        }
    }

    pub(crate) fn into_places(self) -> Vec<Option<Bay<D>>>
        ensures row { result.items ≡ self }
        ensures all { length result.items ≡ DRIVES }
    {
        self.places
    }
}
