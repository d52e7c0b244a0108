//! Lines that say, to a person, why something was refused.
ghost use Rattle.std.specs.Prelude.{◌≡◌, ◌<◌, ◌++◌, [], IfOk, OnOk, OnErr, string_bytes};
ghost use Rattle.explanations.specs.Lines.{shown, line_of, AreLines};

use std::alloc::{AllocError, Global};
use std::marker::Model;

/// The greatest number of columns of a line, its line feed not counted.
pub const COLUMNS: usize = 120;

/// Lines of text. Each has at most 120 printable ASCII characters, and a line feed after them. A contract sees the text
/// of all lines.
#[derive(Debug, Drop)]
pub struct Explanation {
    text: String,
}

impl Model for Explanation {
    ghost use Rattle.std.specs.Prelude.{ℕ, List, string_bytes};
    ghost use Rattle.explanations.specs.Lines.{AreLines};

    ghost Value = { List ℕ };

    ghost view = { λ e. string_bytes e.text };

    ghost invariant = { λ e. AreLines (string_bytes e.text) };
}

// A byte as a line shows it.
fn shown(byte: u8) -> char
    ensures value { result ≡ shown byte }
    ensures ascii { result < 128 }
{
    if byte < 32 || byte > 126 {
        '?'
    } else {
        byte as char
    }
}

// A text as a line has it, with its line feed.
fn line_of(alloc: Global, text: &[u8]) -> Result<String, AllocError>
    ensures { IfOk result (λ line. string_bytes line ≡ line_of text.now) }
{
    let mut line = String::new(alloc);
    for place in 0..text.len().min(COLUMNS) {
        line.push(shown(text[place]))?;
    }
    line.push('\n')?;
    Ok(line)
}

impl Explanation {
    /// An explanation without lines.
    pub fn new(alloc: Global) -> Self
        ensures { result ≡ [] }
    {
        Explanation {
            text: String::new(alloc),
        }
    }

    /// Adds a line: the first 120 bytes of `text`, and a line feed. A question mark stands for each byte that is not a
    /// printable ASCII character. If memory runs out, an error is returned, and nothing is added.
    pub fn add(&mut self, alloc: Global, text: &str) -> Result<(), AllocError>
        ensures ok { OnOk result (self.new ≡ self.old ++ line_of text.now) }
        ensures err { OnErr result (self.new ≡ self.old) }
    {
        let line = line_of(alloc, text.as_bytes())?;
        self.text.push_str(line.as_str())
    }

    /// The text of all lines, with their line feeds.
    pub fn as_str(&self) -> &str
        ensures value { result.now ≡ self.now }
        ensures lines { AreLines self.now }
    {
        self.text.as_str()
    }
}
