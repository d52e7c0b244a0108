//! Rows with an entry for each nexus.
ghost use Rattle.std.specs.Prelude.{◌≡◌, ◌<◌, ◌+◌, IfSome, IfNone};
ghost use Rattle.vtl_base.specs.declared.limits.TheConstants.{NEXUSES};
ghost use Rattle.pr_core.specs.Sets.{GivesEntries, Shows, is_some_in};

use vtl_base::Nexus;
use vtl_base::limits::NEXUSES;

// The place of a nexus in a row, from 0 to 63; None for the number 0, since a contract sees a nexus as any number.
pub(crate) fn place_of(nexus: Nexus) -> Option<usize>
    ensures some { IfSome result (λ place. (place < NEXUSES) × (nexus ≡ place + 1)) }
    ensures none { IfNone result (nexus ≡ 0) }
{
    if nexus.number() == 0 {
        return None;
    }
    Some(nexus.place())
}

// The row that has the value of `entry` for each nexus.
pub(crate) fn row_of<T: Copy, F: Fn(Nexus) -> T>(nothing: T, entry: F) -> [T; 64]
    requires { F.IsAlwaysCallable entry }
    ensures { (entries : _) → GivesEntries (F.post entry) entries → Shows nothing result entries }
{
    let mut row = [nothing; 64];
    for number in 1..=NEXUSES {
        if let Some(nexus) = Nexus::new(number) {
            row[nexus.place()] = entry(nexus);
        }
    }
    row
}

// Whether a test is true for some nexus.
pub(crate) fn any<F: Fn(Nexus) -> bool>(test: F) -> bool
    requires { F.IsAlwaysCallable test }
    ensures { (set : _) → GivesEntries (F.post test) set → result ≡ is_some_in set }
{
    for number in 1..=NEXUSES {
        if let Some(nexus) = Nexus::new(number) {
            if test(nexus) {
                return true;
            }
        }
    }
    false
}
