//! Checks what is left in the rings once all threads are joined.
ghost use Rattle.std.specs.Prelude.{◌≡◌, ◌&&◌, length, false};
ghost use Rattle.rtrb.specs.Ring.{IsPair};
ghost use Rattle.vtl_hosts.specs.Inner.Looks.{ArePairs, LeavesAt, LeavesSome, LooksAll, ChecksRings};

use crate::hosts::HostEnd;
use crate::servers::Host;
use rtrb::{Consumer, Producer};
use vtl_wire::{Answer, Request};

// Whether nothing is left in a host's rings, and no request was dropped.
fn is_empty_at<S: Host>(
    host: &mut HostEnd<S>,
    requests: &mut Producer<Request>,
    answers: &mut Consumer<Answer>,
) -> bool
    requires requests { IsPair requests.old host.old.requests }
    requires answers { IsPair host.old.answers answers.old }
    ensures looks { ChecksRings host.old requests.old answers.old host.new requests.new answers.new result }
    ensures some { result ≡ false → LeavesSome host.new answers.new }
{
    let waiting = host.requests.slots_beside(requests);
    let unwritten = answers.slots_beside(&mut host.answers);
    waiting == 0 && unwritten == 0 && !host.dropped
}

// Whether both are true.
fn both(one: bool, other: bool) -> bool
    ensures { result ≡ (one && other) }
{
    one && other
}

/// Returns true where nothing is left in the rings of any host, and no request was dropped. That is so where every
/// thread has done its work. Since it is checked here, no contract has to say it of the threads.
pub(crate) fn are_empty<S: Host>(
    hosts: &mut [HostEnd<S>],
    requests: &mut [Producer<Request>],
    answers: &mut [Consumer<Answer>],
) -> bool
    requires { ArePairs hosts.old requests.old answers.old }
    ensures looks { LooksAll hosts.old requests.old answers.old hosts.new requests.new answers.new result }
    ensures some { result ≡ false → LeavesAt hosts.new answers.new }
{
    let mut empty = true;
    for place in 0..hosts.len() {
        let here = is_empty_at(&mut hosts[place], &mut requests[place], &mut answers[place]);
        empty = both(empty, here);
    }
    empty
}
