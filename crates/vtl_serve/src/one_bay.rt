//! A drive that one thread holds and serves.
ghost use Rattle.std.specs.Prelude.{◌≡◌, OnOk};
ghost use Rattle.vtl_wire.specs.Serving.{ServesInput};
ghost use Rattle.vtl_serve.specs.OneBay.{AnswersOf, BayAnswers, is_for};

use aptpl_store::AptplStore;
use bay_moves::Bay;
use drive_theorems::served_hosts_run;
use std::alloc::Global;
use std::io::{Read, Write};
use std::marker::Model;
use tape_buffer::Buffered;
use tape_disk::Disk;
use vtl_base::{DriveNo, NoMemory};
use vtl_wire::{Answer, Request, Server, WireFault, serve_requests};

/// A drive, and the number by which requests name it.
#[derive(Drop)]
pub struct OneBay<D: Disk> {
    number: DriveNo,
    bay: Bay<D>,
}

impl<D: Disk> Model for OneBay<D> {
    ghost use Rattle.vtl_serve.specs.OneBay.{OneBayState};

    ghost Value = { OneBayState D };

    ghost view = { λ b. record { number = b.number; bay = b.bay } };
}

impl<D: Disk> OneBay<D> {
    /// The drive `bay`, which requests name by `number`.
    pub fn new(number: DriveNo, bay: Bay<D>) -> OneBay<D>
        ensures { result ≡ record { number = number; bay = bay } }
    {
        OneBay { number, bay }
    }

    /// Returns the drive.
    pub fn into_bay(self) -> Bay<D>
        ensures { result ≡ self.bay }
    {
        self.bay
    }
}

impl<D: Disk> Server for OneBay<D> {
    ghost is_taken = { λ served request. is_for served.number request };

    ghost answers = { AnswersOf D.state };

    ghost lacks = { λ served request. ⊥ };

    fn takes(&self, request: &Request) -> bool {
        match request {
            Request::Command { drive, .. } => *drive == self.number,
            Request::Move { .. } | Request::Inventory { .. } => false,
        }
    }

    fn serve(&mut self, _alloc: Global, request: Request) -> Result<Answer, NoMemory> {
        match request {
            Request::Command {
                host,
                drive: _,
                cdb,
                mut sent,
                tag,
            } => {
                let reply = self.bay.execute_lent(host, cdb.as_slice(), &mut sent);
                Ok(Answer::Command { host, reply, tag })
            }
            Request::Move { .. } | Request::Inventory { .. } => unreachable!(),
        }
    }
}

/// Serves a drive: reads commands from `reader`, up to the end of the input or to the first frame that is refused. Each
/// command is carried out, and its answer is written to `writer`, before the next one is read. A command to another
/// drive is refused, and so are a move and an inventory. At Ok the frames that were written are exactly those of the
/// drive's replies to the commands that were read, in order. Memory can run out only for the data of a command, before
/// that command is carried out.
pub fn serve_bay<D: Disk + Drop, R: Read, W: Write>(
    alloc: Global,
    served: &mut OneBay<D>,
    reader: &mut R,
    writer: &mut W,
) -> Result<(), WireFault>
    ensures serves { ServesInput (λ bay request. is_for bay.number request) (AnswersOf D.state) (λ bay request. ⊥)
        served.old (R.remaining reader.old) (W.contents writer.old) served.new (R.remaining reader.new)
        (W.contents writer.new) result }
    ensures answers { OnOk result (BayAnswers D.state served.old (R.remaining reader.old)
        (W.contents writer.old) served.new (W.contents writer.new)) }
{
    // The law of the machine, for the proof alone.
    served_hosts_run::<Buffered<D>, AptplStore<D>>();
    serve_requests(alloc, served, reader, writer)
}
