//! A reader that gives parts and a writer that takes parts, whose first calls return what a test wants.
use std::alloc::Global;
use std::io;
use std::io::{ErrorKind, Read, Write};

/// The errors of a stream's first calls, in their order; `None` for one that does not fail.
pub type Errors<'a> = &'a [Option<ErrorKind>];

/// A call that fails.
pub const BAD: Option<ErrorKind> = Some(ErrorKind::Other);

/// As many bytes as there are.
pub const ALL: usize = usize::MAX;

// Counts a call, and fails if it is one that is to fail.
fn call(calls: &mut usize, errors: Errors) -> io::Result<()> {
    let at = *calls;
    *calls = at.saturating_add(1);
    match errors.get(at) {
        Some(Some(kind)) => Err(io::Error::from(*kind)),
        _ => Ok(()),
    }
}

/// A reader that gives at most this many bytes of a read.
#[derive(Drop)]
pub struct PartReader<'a> {
    rest: &'a [u8],
    most: usize,
    errors: Errors<'a>,
    calls: usize,
}

impl<'a> PartReader<'a> {
    pub fn new(rest: &'a [u8], most: usize, errors: Errors<'a>) -> Self {
        PartReader {
            rest,
            most,
            errors,
            calls: 0,
        }
    }
}

impl Read for PartReader<'_> {
    fn read(&mut self, buf: &mut [u8]) -> io::Result<usize> {
        call(&mut self.calls, self.errors)?;
        let count = buf.len().min(self.rest.len()).min(self.most);
        buf[..count].copy_from_slice(&self.rest[..count]);
        self.rest = &self.rest[count..];
        Ok(count)
    }
}

/// A writer that takes at most this many bytes of a write. A flush is a call too.
#[derive(Drop)]
pub struct PartWriter<'a> {
    text: Vec<u8>,
    most: usize,
    errors: Errors<'a>,
    calls: usize,
}

impl<'a> PartWriter<'a> {
    pub fn new(alloc: Global, most: usize, errors: Errors<'a>) -> Self {
        PartWriter {
            text: Vec::new(alloc),
            most,
            errors,
            calls: 0,
        }
    }

    pub fn text(&self) -> &[u8] {
        self.text.as_slice()
    }

    pub fn into_text(self) -> Vec<u8> {
        self.text
    }
}

impl Write for PartWriter<'_> {
    fn write(&mut self, buf: &[u8]) -> io::Result<usize> {
        call(&mut self.calls, self.errors)?;
        let count = buf.len().min(self.most);
        self.text.extend_from_slice(&buf[..count])?;
        Ok(count)
    }

    fn flush(&mut self) -> io::Result<()> {
        call(&mut self.calls, self.errors)
    }
}
