//! Running a script over a library.
ghost use Rattle.std.specs.Prelude.{◌≡◌, ◌≢◌, [], ◌∷◌, true, IfOk, OnOk, OnErr, Err};
ghost use Rattle.std.specs.List.{list_all};
ghost use Rattle.vtl_script.specs.declared.items.Item.TheVariants as Kinds;
ghost use Rattle.vtl_script.specs.Runs.{RunsScript, TakesWithin};
ghost use Rattle.bay_moves.specs.Commands.{Commands};
ghost use Rattle.bay_moves.specs.Inner.RunsOn.{held_none, held_on};
ghost use Rattle.bay_moves.specs.Moves.{KeepsBays};
ghost use Rattle.bay_moves.specs.OneHost.{LibraryAnswersHost};
ghost use Rattle.bay_moves.specs.RunKeeps.{RunKeeps};
ghost use Rattle.bay_moves.specs.Runs.{LibraryAnswers, is_configured_in, line_request};

use crate::held::Held;
use crate::laws::cartridges::a_stop_keeps_acknowledged_changes_of_what_is_moved;
use aptpl_store::AptplStore;
use scsi_sense::Reply;
use std::alloc::Global;
use std::io::{Read, Write};
use tape_buffer::Buffered;
use tape_disk::Disk;
use vtl_base::{DriveNo, NoMemory};
use vtl_script::{Item, Line, Runner, ScriptFault, run_script};

impl<D: Disk + Drop> Held<D> {
    // Carries out the command of a line, on the drive that it names. A written block takes the line's data without
    // copying.
    fn run_line(&mut self, line: &mut Line) -> Reply
        requires { is_configured_in self.old line.old.drive ≡ true }
        ensures { Commands D.state line.old.drive (line_request line.old) self.old result self.new }
    {
        self.command_lent(line.host, line.drive, line.cdb.as_slice(), &mut line.sent)
    }

    // Carries out the commands of these lines in order, each on the drive that it names.
    fn run_lines(&mut self, alloc: Global, lines: &mut [Line]) -> Result<Vec<Reply>, NoMemory>
        requires { list_all (λ line. is_configured_in self.old line.drive) lines.old ≡ true }
        ensures ok { IfOk result (λ replies.
            LibraryAnswers D.state self.old (Kinds.Phase lines.old ∷ []) replies.items self.new) }
        ensures err { OnErr result (self.new ≡ self.old) }
        ensures bays { KeepsBays self.old self.new }
    {
        let mut replies = Vec::with_capacity(alloc, lines.len())?;
        for line in lines {
            let reply = self.run_line(line);
            replies.push(reply).unwrap();
        }
        Ok(replies)
    }

    // Moves a cartridge. Where memory runs out, nothing is moved.
    fn run_move(&mut self, alloc: Global, from: u32, to: u32) -> Result<Vec<Reply>, NoMemory>
        ensures ok { IfOk result (λ replies.
            LibraryAnswers D.state self.old (Kinds.Move from to ∷ []) replies.items self.new) }
        ensures err { OnErr result (self.new ≡ self.old) }
        ensures bays { KeepsBays self.old self.new }
    {
        let mut replies = Vec::with_capacity(alloc, 1)?;
        replies.push(self.move_medium(from, to)).unwrap();
        Ok(replies)
    }
}

impl<D: Disk + Drop> Runner for Held<D> {
    ghost is_configured = { is_configured_in };

    ghost answers = { LibraryAnswers D.state };

    ghost is_ready = { λ held. Unit {0} };

    fn configured(&self, drive: DriveNo) -> bool {
        Held::configured(self, drive)
    }

    fn run(&mut self, alloc: Global, item: &mut Item) -> Result<Vec<Reply>, NoMemory> {
        match item {
            Item::Phase(commands) => self.run_lines(alloc, commands.as_mut_slice()),
            Item::Move { from, to } => self.run_move(alloc, *from, *to),
        }
    }

    ghost answers_none = { held_none D.state };

    ghost answers_empty = { held_none D.state };

    ghost answers_on = { held_on D.state };
}

/// Runs a script, read from `reader`, over a library, and writes a line for each reply to `writer`. The script runs up
/// to its end, the first line that is refused, or the first fault.
///
/// Take a script of one host, without moves, that ran to its end. Then each drive has replied to its own lines by a run
/// of its machine, and exactly the text of the replies is written, in the order of the lines. Suppose also that the
/// media are honest, that no frame of theirs was in flight when a device failed, and that no reply reports a fault, a
/// full side or memory that ran out. Then no other text is possible.
pub fn run_held<D: Disk + Drop, R: Read, W: Write>(
    alloc: Global,
    held: &mut Held<D>,
    reader: &mut R,
    writer: &mut W,
) -> Result<(), ScriptFault>
    ensures runs { RunsScript (is_configured_in held.old) (LibraryAnswers D.state) held.old
        (R.remaining reader.old) (W.contents writer.old) held.new (W.contents writer.new) result }
    ensures one_host { OnOk result (LibraryAnswersHost D.state held.old (R.remaining reader.old)
        (W.contents writer.old) held.new (W.contents writer.new)) }
    ensures past { result ≢ Err ScriptFault.ReadFault →
        TakesWithin (R.remaining reader.old) 0 (R.remaining reader.new) }

    // However the run ends, what was acknowledged survives a stop at any moment of it.
    ensures keeps { (runs : RunsScript (is_configured_in held.old) (LibraryAnswers D.state) held.old
        (R.remaining reader.old) (W.contents writer.old) held.new (W.contents writer.new) result)
        → RunKeeps D.state held.old held.new runs.items runs.replies }
{
    // The laws of the machine, of scripts and of stops, for the proof alone.
    drive_theorems::honest_steps::<Buffered<D>>();
    drive_theorems::answers_are_determined();
    drive_theorems::served_hosts_run::<Buffered<D>, AptplStore<D>>();
    vtl_script::laws::one_host_runs_in_order();
    a_stop_keeps_acknowledged_changes_of_what_is_moved::<D>();
    run_script(alloc, held, reader, writer)
}
