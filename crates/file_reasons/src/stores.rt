//! A file that was opened as a store of reservations and is not one.
ghost use Rattle.std.specs.Prelude.{◌≡◌, ◌++◌, OnOk};
ghost use Rattle.file_reasons.specs.Stores.{store_lines};

use explanations::Explanation;
use std::alloc::{AllocError, Global};
use std::fmt;

/// A file that was opened as a store of reservations and is not one: it is another file, or damaged.
#[derive(Debug, Drop)]
pub struct StoreReason {
    /// The file's name.
    pub file: String,
}

impl fmt::Display for StoreReason {
    ghost use Rattle.std.specs.Prelude.{Some};
    ghost use Rattle.file_reasons.specs.Stores.{store_text};

    ghost output = { λ reason. Some (store_text reason) };

    fn fmt<W: fmt::Write>(&self, f: &mut fmt::Formatter<W>) -> fmt::Result {
        let file = &self.file;
        write!(f, "what is in the file {file}")
    }
}

impl StoreReason {
    /// Adds three lines to `lines`: what is refused, what is allowed, and what to do. If memory runs out, an error is
    /// returned, and only some of these lines, from the first one on, or none may have been added.
    pub fn add_to(&self, alloc: Global, lines: &mut Explanation) -> Result<(), AllocError>
        ensures { OnOk result (lines.new ≡ lines.old ++ store_lines self.now) }
    {
        let reason = self;
        let refused = format!(in alloc; "refused: {reason}")?;
        lines.add(alloc, refused.as_str())?;
        lines.add(
            alloc,
            "allowed: the reservations of a drive, in a file that vtl create made",
        )?;
        lines.add(
            alloc,
            "to do: look at the file by vtl check, then name the right one in the configuration",
        )
    }
}
