//! A second file of a cartridge that does not go with the first one.
ghost use Rattle.std.specs.Prelude.{◌≡◌, ◌++◌, OnOk};
ghost use Rattle.file_reasons.specs.Pairs.{pair_allowed, pair_fix, pair_lines};

use crate::sizes::Size;
use explanations::Explanation;
use std::alloc::{AllocError, Global};
use std::fmt;

/// Why a second file does not go with the first one.
#[derive(Clone, Copy, PartialEq, Eq, Debug)]
pub enum PairFault {
    /// The first file is missing and was to be made, and the second file has this many bytes.
    NoFirst(u64),
    /// The second file is to be reclaimed behind a closed pair gate, and its name is that of a link.
    Link,
    /// The second file is to be reclaimed behind a closed pair gate, and has this many bytes, more than ten.
    Foreign(u64),
    /// The pair gate is open, and the second file is missing or has no byte.
    NoSecond,
}

/// A second file that does not go with the first one, and why.
#[derive(Debug, Drop)]
pub struct PairReason {
    /// The second file's name.
    pub file: String,
    /// What is wrong.
    pub fault: PairFault,
}

impl fmt::Display for PairReason {
    ghost use Rattle.std.specs.Prelude.{Some};
    ghost use Rattle.file_reasons.specs.Pairs.{pair_text};

    ghost output = { λ reason. Some (pair_text reason) };

    fn fmt<W: fmt::Write>(&self, f: &mut fmt::Formatter<W>) -> fmt::Result {
        let file = &self.file;
        match self.fault {
            PairFault::NoFirst(bytes) => {
                let bytes = Size(bytes);
                write!(
                    f,
                    "a new first file beside the second file {file}, which has {bytes}"
                )
            }
            PairFault::Link => write!(f, "a copy over the second file {file}, which is a link"),
            PairFault::Foreign(bytes) => {
                let bytes = Size(bytes);
                write!(f, "a copy over the second file {file}, which has {bytes}")
            }
            PairFault::NoSecond => write!(
                f,
                "the second file {file}, which is missing or has no byte"
            ),
        }
    }
}

// The line of what is allowed in place of this.
fn allowed(fault: PairFault) -> &'static str
    ensures { result.now ≡ pair_allowed fault }
{
    match fault {
        PairFault::NoFirst(_) =>
            "allowed: beside a new first file a second one that is missing or has no byte",
        PairFault::Link | PairFault::Foreign(_) =>
            "allowed: behind a closed pair gate a second file of 10 bytes at most, which is no link",
        PairFault::NoSecond =>
            "allowed: behind an open pair gate the second file that a reclaim left",
    }
}

// The line of what to do about this.
fn fix(fault: PairFault) -> &'static str
    ensures { result.now ≡ pair_fix fault }
{
    match fault {
        PairFault::NoFirst(_) =>
            "to do: put the first file back from where it was saved; or remove the second one, with what it holds",
        PairFault::Link | PairFault::Foreign(_) =>
            "to do: put both files back from where they were saved; or move this one away, if it is another's",
        PairFault::NoSecond =>
            "to do: put it back from where it was saved, together with the first one",
    }
}

impl PairReason {
    /// Adds three lines to `lines`: what is refused, what is allowed, and what to do. If memory runs out, an error is
    /// returned, and only some of these lines, from the first one on, or none may have been added.
    pub fn add_to(&self, alloc: Global, lines: &mut Explanation) -> Result<(), AllocError>
        ensures { OnOk result (lines.new ≡ lines.old ++ pair_lines self.now) }
    {
        let (reason, fault) = (self, self.fault);
        let refused = format!(in alloc; "refused: {reason}")?;
        lines.add(alloc, refused.as_str())?;
        lines.add(alloc, allowed(fault))?;
        lines.add(alloc, fix(fault))
    }
}
