//! What an answer means.
ghost use Rattle.std.specs.Prelude.{◌≡◌};
ghost use Rattle.answer_meanings.specs.AnswerLines.{answer_line};

use crate::sense_texts::{Counted, SenseText};
use scsi_sense::{Reply, Status};
use std::fmt;

/// Why an answer is not GOOD.
#[derive(Clone, Copy, PartialEq, Eq, Debug)]
pub enum Cause {
    /// CHECK CONDITION, with this sense data.
    Check(SenseText),
    /// RESERVATION CONFLICT.
    Conflict,
}

/// The meaning of the answer to a line of a script, as one line of English without a line feed. It allocates no memory.
#[derive(Clone, Copy, PartialEq, Eq, Debug)]
pub struct AnswerLine {
    /// The number of the script's line; the first line has number 1.
    pub line: u64,
    /// Why the answer is not GOOD.
    pub cause: Cause,
}

impl AnswerLine {
    /// Returns the meaning of `reply`, the answer to line number `line` of the script. `counted` says what INFORMATION
    /// counts for the command of that line. Returns None where the status is GOOD, or CHECK CONDITION without sense
    /// data.
    pub fn of(line: u64, reply: &Reply, counted: Counted) -> Option<Self>
        ensures { result ≡ answer_line line reply.now counted }
    {
        let cause = match reply.status {
            Status::Good => return None,
            Status::Check => Cause::Check(SenseText {
                sense: reply.sense?,
                counted,
            }),
            Status::Conflict => Cause::Conflict,
        };
        Some(AnswerLine { line, cause })
    }
}

impl fmt::Display for AnswerLine {
    ghost use Rattle.std.specs.Prelude.{Some};
    ghost use Rattle.answer_meanings.specs.AnswerLines.{line_text};

    ghost output = { λ it. Some (line_text it) };

    fn fmt<W: fmt::Write>(&self, f: &mut fmt::Formatter<W>) -> fmt::Result {
        let line = self.line;
        match self.cause {
            Cause::Check(text) => write!(f, "line {line}: {text}"),
            Cause::Conflict => write!(
                f,
                "line {line}: a reservation of another host stops this command (CONFLICT)"
            ),
        }
    }
}
