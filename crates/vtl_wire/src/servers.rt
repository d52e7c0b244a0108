//! The trait of a server of requests.
ghost use Rattle.std.specs.Prelude.{◌≡◌, true, Bool, IfOk, OnErr};
ghost use Rattle.vtl_wire.specs.declared.answers.Answer.{Answer};
ghost use Rattle.vtl_wire.specs.declared.requests.Request.{Request};

use crate::answers::Answer;
use crate::requests::Request;
use std::alloc::Global;
use vtl_base::NoMemory;

/// A server, which answers requests one after another.
pub trait Server {
    /// Whether the server takes a request.
    ghost is_taken: { Self → Request → Bool };

    /// A server in the first state may give this answer to this request, and is then in the last state.
    ghost answers: { Self → Request → Answer → Self → Type 0 };

    /// A cause for memory to run out while a request is served. Where it never runs out, this is an empty type.
    ghost lacks: { Self → Request → Type 0 };

    /// Whether the server takes this request. It does not take a command to a drive that is not configured.
    fn takes(&self, request: &Request) -> bool
        ensures { result ≡ is_taken self.now request.now };

    /// Serves a request that the server takes, and returns the answer. If memory runs out, an error is returned, and
    /// nothing was done.
    fn serve(&mut self, alloc: Global, request: Request) -> Result<Answer, NoMemory>
        requires { is_taken self.old request ≡ true }
        ensures ok { IfOk result (λ answer. answers self.old request answer self.new) }
        ensures err { OnErr result (lacks self.old request × (self.new ≡ self.old)) };
}
