//! A reader and a writer that give and take pieces, and fail where a test wants it.
use std::alloc::Global;
use std::io;
use std::io::{ErrorKind, Read, Write};

/// The bytes of a call at most, and the first call that fails, if any, with its fault.
#[derive(Clone, Copy)]
pub struct Plan {
    pub piece: usize,
    pub bad: Option<(u32, ErrorKind)>,
}

impl Plan {
    pub fn pieces(piece: usize) -> Self {
        Plan { piece, bad: None }
    }

    // The fault of a call, if it fails.
    fn fault(&self, call: u32) -> Option<ErrorKind> {
        match self.bad {
            Some((bad, kind)) if bad == call => Some(kind),
            _ => None,
        }
    }
}

#[derive(Drop)]
pub struct PipeReader<'a> {
    /// What was not read.
    pub rest: &'a [u8],
    plan: Plan,
    /// How many reads were asked for.
    pub calls: u32,
}

impl<'a> PipeReader<'a> {
    pub fn new(rest: &'a [u8], plan: Plan) -> Self {
        PipeReader {
            rest,
            plan,
            calls: 0,
        }
    }
}

impl Read for PipeReader<'_> {
    fn read(&mut self, buf: &mut [u8]) -> io::Result<usize> {
        self.calls = self.calls.saturating_add(1);
        if let Some(kind) = self.plan.fault(self.calls) {
            return Err(io::Error::from(kind));
        }
        let count = self.plan.piece.min(buf.len()).min(self.rest.len());
        buf[..count].copy_from_slice(&self.rest[..count]);
        self.rest = &self.rest[count..];
        Ok(count)
    }
}

#[derive(Drop)]
pub struct PipeWriter {
    pub written: Vec<u8>,
    /// How many bytes had been written at the last flush.
    pub flushed: usize,
    plan: Plan,
    /// How many writes and flushes were asked for.
    pub calls: u32,
}

impl PipeWriter {
    pub fn new(alloc: Global, plan: Plan) -> Self {
        PipeWriter {
            written: Vec::new(alloc),
            flushed: 0,
            plan,
            calls: 0,
        }
    }

    // Counts a call, and fails where it is the one that is to fail.
    fn call(&mut self) -> io::Result<()> {
        self.calls = self.calls.saturating_add(1);
        match self.plan.fault(self.calls) {
            Some(kind) => Err(io::Error::from(kind)),
            None => Ok(()),
        }
    }
}

impl Write for PipeWriter {
    fn write(&mut self, buf: &[u8]) -> io::Result<usize> {
        self.call()?;
        let count = self.plan.piece.min(buf.len());
        self.written.extend_from_slice(&buf[..count])?;
        Ok(count)
    }

    fn flush(&mut self) -> io::Result<()> {
        self.call()?;
        self.flushed = self.written.len();
        Ok(())
    }
}
