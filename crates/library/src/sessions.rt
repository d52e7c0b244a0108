//! The lines of one host in a phase of a script.
ghost use Rattle.std.specs.Prelude.{◌≡◌, ◌≤◌, [], nat_eq, true, length, vec_capacity, IfOk, OnErr};
ghost use Rattle.std.specs.List.{list_all};
ghost use Rattle.bay_moves.specs.Runs.{line_request};
ghost use Rattle.library.specs.Counts.{has_drive};
ghost use Rattle.library.specs.Served.{IsServed};
ghost use Rattle.library.specs.Sessions.{AnswersSession};

use crate::libraries::Library;
use crate::places::Seat;
use ledgers::Parties;
use scsi_sense::Reply;
use split_bay::Rings;
use std::alloc::Global;
use std::sync::Wait;
use tape_disk::Disk;
use vtl_base::NoMemory;
use vtl_script::Line;

impl<D: Disk + Drop, B: Parties + Rings, H: Parties> Library<D, B, H> {
    /// Carries out the commands of `lines` for the host that has `seat`, in order, each on the drive that its line
    /// names, and returns their replies. The lines have to be that host's, and their drives configured. A block that is
    /// written takes over the data of its line without a copy. If memory for the replies runs out, an error is
    /// returned, and no line is carried out.
    pub fn host_session<R: Wait>(
        &self,
        rt: &R,
        alloc: Global,
        seat: &mut Seat<H>,
        lines: &mut [Line],
    ) -> Result<Vec<Reply>, NoMemory>
        requires hosts { list_all (λ line. nat_eq line.host seat.old.nexus) lines.old ≡ true }
        requires configured { list_all (λ line. has_drive self.now line.drive) lines.old ≡ true }
        ensures ok { IfOk result (λ replies.
            AnswersSession D.state seat.old lines.old replies.items seat.new) }
        ensures err { OnErr result ((seat.new ≡ seat.old) × (lines.new ≡ lines.old)) }
    {
        let mut replies = Vec::with_capacity(alloc, lines.len())?;
        self.session(rt, seat, lines, &mut replies);
        Ok(replies)
    }

    /// Carries out `lines` as `host_session` does, and appends their replies to `replies`, which has to be empty and to
    /// have room for all of them. No memory is allocated for `replies`.
    pub fn session<R: Wait>(
        &self,
        rt: &R,
        seat: &mut Seat<H>,
        lines: &mut [Line],
        replies: &mut Vec<Reply>,
    )
        requires hosts { list_all (λ line. nat_eq line.host seat.old.nexus) lines.old ≡ true }
        requires configured { list_all (λ line. has_drive self.now line.drive) lines.old ≡ true }
        requires room { (replies.old.items ≡ []) × (length lines.old ≤ vec_capacity replies.old) }
        ensures { AnswersSession D.state seat.old lines.old replies.new.items seat.new }
    {
        for line in lines {
            let reply = self.serve_line(rt, seat, line);
            replies.push(reply).unwrap();
        }
    }

    /// Carries out the command of `line`, on the configured drive that it names, and returns the reply. `seat` is the
    /// seat of the line's host. A block that is written takes over the line's data without a copy. The change that the
    /// command makes, if any, is entered in the ledgers, for the drive and for the seat.
    pub fn serve_line<R: Wait>(&self, rt: &R, seat: &mut Seat<H>, line: &mut Line) -> Reply
        requires host { line.old.host ≡ seat.old.nexus }
        requires configured { has_drive self.now line.old.drive ≡ true }
        ensures { IsServed D.state (line_request line.old) seat.old result seat.new }
    {
        self.command(rt, seat, line.drive, line.cdb.as_slice(), &mut line.sent)
    }
}
