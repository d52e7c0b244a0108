//! Finds the fields of a line: parts without spaces, each given by the places of its bytes in the line.
ghost use Rattle.std.specs.Prelude.{◌≤◌, IfSome, length};
ghost use Rattle.script_reasons.specs.Reasons.{IsFieldOf};

// A part of a line: where it begins, and where it ends.
#[derive(Clone, Copy)]
pub(crate) struct Part {
    pub(crate) from: usize,
    pub(crate) to: usize,
}

// The first place from `from` on whose byte is a space, if `is_space` is true, or another byte, if it is false. Where
// there is none, the end of the line.
fn place_of(line: &[u8], from: usize, is_space: bool) -> usize
    requires { from ≤ length line.now }
    ensures { (from ≤ result) × (result ≤ length line.now) }
{
    for place in from..line.len() {
        if (line[place] == b' ') == is_space {
            return place;
        }
    }
    line.len()
}

// The first field from place `from` on; None where only spaces are left.
pub(crate) fn field_from(line: &[u8], from: usize) -> Option<Part>
    requires { from ≤ length line.now }
    ensures { IfSome result (IsFieldOf line.now) }
{
    let begin = place_of(line, from, false);
    let end = place_of(line, begin, true);
    if begin < end {
        Some(Part {
            from: begin,
            to: end,
        })
    } else {
        None
    }
}
