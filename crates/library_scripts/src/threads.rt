//! Work on several values, in threads side by side.
ghost use Rattle.std.specs.Prelude.{◌≡◌, All, length};
ghost use Rattle.std.specs.Fork.{AcceptsAt, ChangesAt};
ghost use Rattle.library_scripts.specs.Inner.Threads.{ChangesAll};
ghost use denote.Param.Send.{IsSend, IsSync};

use std::marker::{Send, Sync};
use std::thread;
use std::thread::Threads;

/// A value for which there may be nothing to do.
pub(crate) trait Idle {
    /// Returns true where there is nothing to do for this value, so that it needs no thread.
    fn is_idle(&self) -> bool;
}

/// Calls `f` once on each of `items`, with the number 0. Of the values for which there is something to do, the last one
/// runs in the caller's thread, and each other one in a thread of its own. The call returns once all calls of `f` have
/// returned.
#[cycle(each)]
pub(crate) fn each_beside<R: Threads + Sync, T: Idle + Send, F: Fn(usize, &mut T) + Sync>(
    rt: &R,
    f: &F,
    items: &mut [T],
)
    requires { All (AcceptsAt F.Fn f.now 0) items.old }
    ensures { ChangesAll F.Fn f.now items.old items.new }
{
    if items.is_empty() {
        return;
    }
    let (first, rest) = items.split_at_mut(1);
    if first[0].is_idle() || are_idle(rest) {
        at_first(f, first);
        each_beside(rt, f, rest);
    } else {
        first_beside(rt, f, first, rest);
    }
}

// Calls the function on the only value of `first` in a new thread, and beside it on those of `rest`.
#[cycle(each)]
fn first_beside<R: Threads + Sync, T: Idle + Send, F: Fn(usize, &mut T) + Sync>(
    rt: &R,
    f: &F,
    first: &mut [T],
    rest: &mut [T],
)
    requires one { length first.old ≡ 1 }
    requires first { All (AcceptsAt F.Fn f.now 0) first.old }
    requires rest { All (AcceptsAt F.Fn f.now 0) rest.old }
    ensures first { ChangesAll F.Fn f.now first.old first.new }
    ensures rest { ChangesAll F.Fn f.now rest.old rest.new }
{
    let mut one = ||
        requires { IsSync F.row × (length first.now ≡ 1) × All (AcceptsAt F.Fn f.now 0) first.now }
        ensures { ChangesAll F.Fn f.entry.now first.entry.now first.exit.now }
    { at_first(f, first) };
    let mut others = ||
        requires { IsSync R.row × IsSync F.row × IsSend T.row × All (AcceptsAt F.Fn f.now 0) rest.now }
        ensures { ChangesAll F.Fn f.entry.now rest.entry.now rest.exit.now }
    { each_beside(rt, f, rest) };
    thread::join_mut(rt, &mut one, &mut others);
}

// Calls the function on the only value of `first`, in this thread.
fn at_first<T, F: Fn(usize, &mut T)>(f: &F, first: &mut [T])
    requires one { length first.old ≡ 1 }
    requires first { All (AcceptsAt F.Fn f.now 0) first.old }
    ensures { ChangesAll F.Fn f.now first.old first.new }
{
    at_one(f, &mut first[0]);
}

// Calls the function on this value, in this thread.
fn at_one<T, F: Fn(usize, &mut T)>(f: &F, item: &mut T)
    requires { AcceptsAt F.Fn f.now 0 item.old }
    ensures { ChangesAt F.Fn f.now 0 item.old item.new }
{
    f(0, item);
}

// Returns true where there is nothing to do for any of these values.
fn are_idle<T: Idle>(items: &[T]) -> bool {
    for item in items {
        if !item.is_idle() {
            return false;
        }
    }
    true
}
