//! Serving one host of a library that threads share.
ghost use Rattle.std.specs.Prelude.{◌≡◌, true, OnOk};
ghost use Rattle.vtl_wire.specs.Serving.{ServesInput};
ghost use Rattle.vtl_serve.specs.OneHost.{AnswersHost, HostAnswers, is_from};

use ledgers::Parties;
use library::{Library, Rings, Seat};
use std::alloc::Global;
use std::io::{Read, Write};
use std::marker::Model;
use std::sync::Wait;
use tape_disk::Disk;
use vtl_base::NoMemory;
use vtl_hosts::Host;
use vtl_wire::{Answer, Request, Server, WireFault, serve_requests};

/// A host to be served: its seat at a library that threads share. A contract sees the seat, and which drives there are.
#[derive(Drop)]
pub struct OneHost<'a, D: Disk, B: Parties + Rings, H: Parties, R> {
    rt: &'a R,
    library: &'a Library<D, B, H>,
    seat: Seat<H>,
}

impl<'a, D: Disk, B: Parties + Rings, H: Parties, R> Model for OneHost<'a, D, B, H, R> {
    ghost use Rattle.vtl_serve.specs.OneHost.{OneHostState};

    ghost Value = { OneHostState };

    ghost view = { λ h. record { drives = h.library.now; seat = h.seat } };
}

impl<'a, D: Disk + Drop, B: Parties + Rings, H: Parties, R> OneHost<'a, D, B, H, R> {
    /// The host that has this seat at `library`.
    pub fn new(rt: &'a R, library: &'a Library<D, B, H>, seat: Seat<H>) -> OneHost<'a, D, B, H, R>
        ensures { result ≡ record { drives = library.now; seat = seat } }
    {
        OneHost { rt, library, seat }
    }

    /// Returns the host's seat.
    pub fn into_seat(self) -> Seat<H>
        ensures { result ≡ self.entry.seat }
    {
        self.seat
    }
}

impl<'a, D: Disk + Drop, B: Parties + Rings, H: Parties, R: Wait> OneHost<'a, D, B, H, R> {
    // Whether a request is a command of the host to a configured drive.
    fn takes_request(&self, request: &Request) -> bool
        ensures { result ≡ is_from self.now.drives self.now.seat.nexus request.now }
    {
        match request {
            Request::Command { host, drive, .. } => {
                *host == self.seat.nexus() && self.library.configured(*drive)
            }
            Request::Move { .. } | Request::Inventory { .. } => false,
        }
    }

    // Answers a command of the host. A block that is written takes the data without a copy.
    fn answer_command(&mut self, request: Request) -> Answer
        requires { is_from self.old.drives self.old.seat.nexus request ≡ true }
        ensures { AnswersHost D.state self.old request result self.new }
    {
        match request {
            Request::Command {
                host,
                drive,
                cdb,
                mut sent,
                tag,
            } => {
                let rt = self.rt;
                let library = self.library;
                let seat = &mut self.seat;
                let reply = library.command(rt, seat, drive, cdb.as_slice(), &mut sent);
                Answer::Command { host, reply, tag }
            }
            Request::Move { .. } | Request::Inventory { .. } => unreachable!(),
        }
    }
}

impl<'a, D: Disk + Drop, B: Parties + Rings, H: Parties, R: Wait> Server
    for OneHost<'a, D, B, H, R> {
    ghost is_taken = { λ served request. is_from served.drives served.seat.nexus request };

    ghost answers = { AnswersHost D.state };

    ghost lacks = { λ served request. ⊥ };

    fn takes(&self, request: &Request) -> bool {
        self.takes_request(request)
    }

    fn serve(&mut self, _alloc: Global, request: Request) -> Result<Answer, NoMemory> {
        Ok(self.answer_command(request))
    }
}

impl<'a, D: Disk + Drop, B: Parties + Rings, H: Parties, R: Wait> Host for OneHost<'a, D, B, H, R> {
    ghost is_taken = { λ served request. is_from served.drives served.seat.nexus request };

    ghost answers = { AnswersHost D.state };

    fn takes(&self, request: &Request) -> bool {
        self.takes_request(request)
    }

    fn answer(&mut self, request: Request) -> Answer {
        self.answer_command(request)
    }
}

/// Serves one host of a library: reads its commands from `reader`, up to the end of the input or to the first frame
/// that is refused. Each command is carried out, and its answer written to `writer`, before the next one is read. A
/// command of another host or to a drive that is not configured is refused, and so are a move and an inventory. Other
/// threads may serve other hosts meanwhile.
pub fn serve_host<'a, D: Disk + Drop, B: Parties + Rings, H: Parties, R: Wait, I: Read, O: Write>(
    alloc: Global,
    served: &mut OneHost<'a, D, B, H, R>,
    reader: &mut I,
    writer: &mut O,
) -> Result<(), WireFault>
    ensures serves { ServesInput (λ host request. is_from host.drives host.seat.nexus request) (AnswersHost D.state)
        (λ host request. ⊥) served.old (I.remaining reader.old) (O.contents writer.old) served.new
        (I.remaining reader.new) (O.contents writer.new) result }
    ensures answers { OnOk result (HostAnswers D.state served.old served.new (I.remaining reader.old)
        (O.contents writer.old) (O.contents writer.new)) }
{
    serve_requests(alloc, served, reader, writer)
}
