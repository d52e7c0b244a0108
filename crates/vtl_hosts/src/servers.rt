//! The traits of a host's server, and of the desk, which serves moves and inventories.
ghost use Rattle.std.specs.Prelude.{◌≡◌, true, Bool, IfOk, OnErr};
ghost use Rattle.vtl_wire.specs.declared.answers.Answer.{Answer};
ghost use Rattle.vtl_wire.specs.declared.requests.Request.{Request};
ghost use Rattle.vtl_hosts.specs.Rounds.{host_in};

use std::alloc::Global;
use vtl_base::NoMemory;
use vtl_wire::{Answer, Request};

/// A server of one host, which answers its commands one after another.
pub trait Host {
    /// Whether the host's server takes a request.
    ghost is_taken: { Self → Request → Bool };

    /// A server in the first state may give this answer to this request, and is then in the last state.
    ghost answers: { Self → Request → Answer → Self → Type 0 };

    /// Whether the server takes this request.
    fn takes(&self, request: &Request) -> bool
        ensures { result ≡ is_taken self.now request.now };

    /// Answers a request that the server takes. Where memory runs out, the answer reports that.
    fn answer(&mut self, request: Request) -> Answer
        requires { is_taken self.old request ≡ true }
        ensures { answers self.old request result self.new };
}

/// A server that decides which requests are taken, and that serves moves and inventories, the requests that belong to
/// no host.
pub trait Desk {
    /// Whether a request is taken.
    ghost is_taken: { Self → Request → Bool };

    /// A desk in the first state may give this answer to this request, which belongs to no host, and is then in the
    /// last state.
    ghost answers: { Self → Request → Answer → Self → Type 0 };

    /// A cause for memory to run out while a request that belongs to no host is served. Where memory never runs out,
    /// this is an empty type.
    ghost lacks: { Self → Request → Type 0 };

    /// Whether this request is taken. A command to a drive that is not configured is not taken.
    fn takes(&self, request: &Request) -> bool
        ensures { result ≡ is_taken self.now request.now };

    /// Serves a request that belongs to no host, while nothing else is served. `Err` means that memory ran out; then
    /// nothing was done.
    fn serve(&mut self, alloc: Global, request: Request) -> Result<Answer, NoMemory>
        requires taken { is_taken self.old request ≡ true }
        requires host { host_in request ≡ 0 }
        ensures ok { IfOk result (λ answer. answers self.old request answer self.new) }
        ensures err { OnErr result (lacks self.old request × (self.new ≡ self.old)) };
}
