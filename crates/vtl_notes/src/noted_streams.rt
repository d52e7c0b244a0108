//! A writer that notes why a write failed.
use explanations::Answer;
use std::io::{self, ErrorKind, Write};
use std::sync::Mutex;

/// A note of the first failed call for standard output, and of why it failed. The thread that writes makes the note,
/// and another thread may read it.
#[derive(Drop)]
pub struct OutputNote {
    is_on: bool,
    answer: Mutex<Option<Answer>>,
}

impl OutputNote {
    /// Creates an empty note. If `is_on` is false, nothing is ever noted.
    pub fn new(is_on: bool) -> OutputNote {
        OutputNote {
            is_on,
            answer: Mutex::new(None),
        }
    }

    // Notes what a write that failed was answered. Only the first answer is noted.
    fn fail(&self, answer: Answer) {
        if !self.is_on {
            return;
        }
        if let Some(mut held) = self.answer.try_lock() {
            let first = held.take().unwrap_or(answer);
            *held = Some(first);
        }
    }

    /// Takes out the answer to the first call that failed. None where no call failed, where the answer was taken out
    /// before, or while another thread uses the note.
    pub fn failed(&self) -> Option<Answer> {
        let mut held = self.answer.try_lock()?;
        held.take()
    }
}

/// A writer for standard output that passes each call on to the writer below it, and notes the first call that fails.
/// An interrupted call does not count as failed.
#[derive(Drop)]
pub struct NotingWriter<'a, W> {
    below: W,
    note: &'a OutputNote,
}

impl<'a, W> NotingWriter<'a, W> {
    /// Creates a writer that passes its calls on to `below`, and notes the first failure in `note`.
    pub fn new(below: W, note: &'a OutputNote) -> Self {
        NotingWriter { below, note }
    }

    // Notes a call that failed, unless it was interrupted, since it is then made again.
    fn fail_by(&self, error: &io::Error) {
        if error.kind() != ErrorKind::Interrupted {
            self.note.fail(Answer::of_error(error));
        }
    }
}

impl<'a, W: Write> Write for NotingWriter<'a, W> {
    ghost contents = { λ writer. W.contents writer.below };

    fn write(&mut self, buf: &[u8]) -> io::Result<usize> {
        let written = self.below.write(buf);
        match &written {
            Ok(0) if !buf.is_empty() => self.note.fail(Answer::TookNone),
            Ok(_) => {}
            Err(error) => self.fail_by(error),
        }
        written
    }

    fn flush(&mut self) -> io::Result<()> {
        let flushed = self.below.flush();
        if let Err(error) = &flushed {
            self.fail_by(error);
        }
        flushed
    }
}
