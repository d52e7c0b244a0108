//! The order in which the commands of a phase are run.
ghost use Rattle.std.specs.Prelude.{◌≡◌, ◌↔◌, true, IsTrue, IsOk, OnOk};
ghost use Rattle.std.specs.List.{list_all};
ghost use Rattle.std.specs.List.Sorted.{IsNonDecreasingBy};
ghost use Rattle.vtl_script.specs.Items.{by_host, has_host};

use crate::lines::Line;
use std::alloc::AllocError;

// Whether no host stands after a higher one.
fn are_sorted_by_host(lines: &[Line]) -> bool
    ensures { IsTrue result ↔ IsNonDecreasingBy (λ line. line.host) lines.now }
{
    for i in 1..lines.len() {
        if lines[i].host.number() < lines[i - 1].host.number() {
            return false;
        }
    }
    true
}

/// Sorts the commands of a phase into the order in which they are run: by rising host, and those of one host in their
/// present order. Where the commands are sorted already, memory does not run out.
pub fn sort_by_host(lines: &mut Vec<Line>) -> Result<(), AllocError>
    requires { list_all has_host lines.old.items ≡ true }
    ensures order { OnOk result (lines.new.items ≡ by_host lines.old.items) }
    ensures sorted { IsNonDecreasingBy (λ line. line.host) lines.old.items → IsOk result }
{
    if are_sorted_by_host(lines.as_slice()) {
        return Ok(());
    }
    lines.sort_by_key(|line| line.host.number())
}
