//! The names of the files of a configuration.
ghost use Rattle.std.specs.Prelude.{◌≡◌, IfOk, string_bytes};
ghost use Rattle.vtl_config.specs.FileNames.{second_name};

use std::alloc::{AllocError, Global};
use std::marker::Model;

// What is added to the name of a cartridge's first file.
pub(crate) const SECOND: &str = ".2";

/// The name of a file, as a configuration has it (own). A `FileName` is made only by `read_config`, once for each file
/// of an entry, and it cannot be copied. Code that makes or opens the file uses the name up, and gets a `UsedName` for
/// it. So code that gets a configuration can make or open each of its files at most once. A contract sees the bytes of
/// the name.
#[derive(Drop, Debug)]
pub struct FileName {
    text: String,
}

/// The name of a file that was made or opened. Whoever made or opened the file returns its disk together with this
/// name. A contract sees the bytes of the name.
#[derive(Drop, Debug)]
pub struct UsedName {
    text: String,
}

impl Model for FileName {
    ghost use Rattle.std.specs.Prelude.{ℕ, List, string_bytes};

    ghost Value = { List ℕ };

    ghost view = { λ n. string_bytes n.text };
}

impl Model for UsedName {
    ghost use Rattle.std.specs.Prelude.{ℕ, List, string_bytes};

    ghost Value = { List ℕ };

    ghost view = { λ n. string_bytes n.text };
}

impl FileName {
    // The name that a configuration has.
    pub(crate) fn of(text: String) -> FileName
        ensures { result ≡ string_bytes text }
    {
        FileName { text }
    }

    /// The name as text, to compare it with others.
    pub fn as_str(&self) -> &str
        ensures { result.now ≡ self.now }
    {
        self.text.as_str()
    }

    /// Uses the name up, and returns the same name as a `UsedName`. Call this where the file is made or opened.
    pub fn use_up(self) -> UsedName
        ensures { result ≡ self }
    {
        let FileName { text } = self;
        UsedName { text }
    }
}

impl UsedName {
    /// The name as text, for calls of the system.
    pub fn as_str(&self) -> &str
        ensures { result.now ≡ self.now }
    {
        self.text.as_str()
    }
}

/// Returns the name of a cartridge's second file: `file`, the name of its first one, with `.2` added. If memory runs
/// out, an error is returned.
pub fn second_file(alloc: Global, file: &str) -> Result<String, AllocError>
    ensures { IfOk result (λ name. string_bytes name ≡ second_name file.now) }
{
    let mut name = String::from_str(alloc, file)?;
    name.push_str(SECOND)?;
    Ok(name)
}
