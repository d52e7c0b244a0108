//! A reader and a writer that know of one another, and fail where a test wants it.
use std::alloc::Global;
use std::cell::Cell;
use std::io;
use std::io::{ErrorKind, Read, Write};

/// How a reader and a writer behave: the most bytes of a read and of a write, and the first call of either
/// that fails, if any, with how many calls fail in a row.
#[derive(Clone, Copy)]
pub struct Plan {
    pub piece: usize,
    pub taken: usize,
    pub bad_read: Option<(u32, ErrorKind)>,
    pub bad_write: Option<(u32, ErrorKind)>,
    pub in_a_row: u32,
}

impl Plan {
    pub fn whole() -> Self {
        Plan {
            piece: usize::MAX,
            taken: usize::MAX,
            bad_read: None,
            bad_write: None,
            in_a_row: 1,
        }
    }

    /// Reads of so many bytes at most, of which as many as `times` fail, from the call with this number on.
    pub fn read(piece: usize, call: u32, kind: ErrorKind, times: u32) -> Self {
        Plan {
            piece,
            bad_read: Some((call, kind)),
            in_a_row: times,
            ..Plan::whole()
        }
    }

    /// The same of writes and flushes.
    pub fn write(taken: usize, call: u32, kind: ErrorKind, times: u32) -> Self {
        Plan {
            taken,
            bad_write: Some((call, kind)),
            in_a_row: times,
            ..Plan::whole()
        }
    }

    // What the plan says of a call: the kind of its fault, if it fails.
    fn fault(&self, bad: Option<(u32, ErrorKind)>, call: u32) -> Option<ErrorKind> {
        match bad {
            Some((first, kind)) if first <= call && call - first < self.in_a_row => Some(kind),
            _ => None,
        }
    }
}

/// Whether answers were written that were not flushed, and whether a read came meanwhile.
#[derive(Drop)]
pub struct Wire {
    held: Cell<bool>,
    read_early: Cell<bool>,
}

impl Wire {
    pub fn new() -> Self {
        Wire {
            held: Cell::new(false),
            read_early: Cell::new(false),
        }
    }

    pub fn read_early(&self) -> bool {
        self.read_early.get()
    }
}

#[derive(Drop)]
pub struct WireReader<'a> {
    rest: &'a [u8],
    plan: Plan,
    calls: u32,
    wire: &'a Wire,
}

impl<'a> WireReader<'a> {
    pub fn new(rest: &'a [u8], plan: Plan, wire: &'a Wire) -> Self {
        WireReader {
            rest,
            plan,
            calls: 0,
            wire,
        }
    }

    /// How many reads were called.
    pub fn calls(&self) -> u32 {
        self.calls
    }
}

impl Read for WireReader<'_> {
    fn read(&mut self, buf: &mut [u8]) -> io::Result<usize> {
        if self.wire.held.get() {
            self.wire.read_early.set(true);
        }
        self.calls = self.calls.saturating_add(1);
        if let Some(kind) = self.plan.fault(self.plan.bad_read, self.calls) {
            return Err(io::Error::from(kind));
        }
        let count = self.plan.piece.min(buf.len()).min(self.rest.len());
        buf[..count].copy_from_slice(&self.rest[..count]);
        self.rest = &self.rest[count..];
        Ok(count)
    }
}

#[derive(Drop)]
pub struct WireWriter<'a> {
    text: Vec<u8>,
    plan: Plan,
    calls: u32,
    wire: &'a Wire,
}

impl<'a> WireWriter<'a> {
    pub fn new(alloc: Global, plan: Plan, wire: &'a Wire) -> Self {
        WireWriter {
            text: Vec::new(alloc),
            plan,
            calls: 0,
            wire,
        }
    }

    pub fn into_text(self) -> Vec<u8> {
        self.text
    }
}

impl WireWriter<'_> {
    // Counts a call, and fails if it is one that is to fail.
    fn call(&mut self) -> io::Result<()> {
        self.calls = self.calls.saturating_add(1);
        match self.plan.fault(self.plan.bad_write, self.calls) {
            Some(kind) => Err(io::Error::from(kind)),
            None => Ok(()),
        }
    }
}

impl Write for WireWriter<'_> {
    fn write(&mut self, buf: &[u8]) -> io::Result<usize> {
        self.call()?;
        let count = self.plan.taken.min(buf.len());
        self.text.extend_from_slice(&buf[..count])?;
        self.wire.held.set(true);
        Ok(count)
    }

    fn flush(&mut self) -> io::Result<()> {
        self.call()?;
        self.wire.held.set(false);
        Ok(())
    }
}
