//! Scripts: items that are read, run and answered.
ghost use Rattle.std.specs.Prelude.{◌≡◌, ◌≢◌, ◌<◌, ◌∷◌, [], Ok, Err, IfSome, OnOk, true};
ghost use Rattle.vtl_script.specs.Inner.Reading.{work_left};
ghost use Rattle.vtl_script.specs.Inner.ReadItem.{with_move, shows_phase};
ghost use Rattle.vtl_script.specs.Inner.RunItem.{RunsItems, RunsNext};
ghost use Rattle.vtl_script.specs.Items.{IsRunnable};
ghost use Rattle.vtl_script.specs.Runs.{RunsScript, TakesWithin};

use crate::answer_texts::AnswerText;
use crate::faults::ScriptFault;
use crate::items::{Item, NextItems, read_items};
use crate::line_readers::LineReader;
use crate::runners::Runner;
use crate::texts::print_replies;
use std::alloc::Global;
use std::io::{Read, Write};

// Runs an item and writes its replies.
fn run_item<P: Runner, W: Write>(
    alloc: Global,
    runner: &mut P,
    item: &mut Item,
    text: &mut AnswerText,
    writer: &mut W,
) -> Result<(), ScriptFault>
    requires item { IsRunnable (P.is_configured runner.old) item.old }
    requires text { text.old ≡ [] }
    requires ready { P.is_ready runner.old }
    ensures runs { RunsItems P.answers runner.old (item.old ∷ []) (W.contents writer.old)
        runner.new (W.contents writer.new) result }
    ensures text { OnOk result (text.new ≡ []) }
    ensures same { P.is_configured runner.new ≡ P.is_configured runner.old }
    ensures ready { P.is_ready runner.new }
{
    let replies = runner.run(alloc, item)?;
    print_replies(text, writer, replies.as_slice())
}

// Runs a phase and writes its replies, and then does the same with the move after it, if there is one.
fn run_items<P: Runner, W: Write>(
    alloc: Global,
    runner: &mut P,
    mut phase: Item,
    moved: Option<Item>,
    text: &mut AnswerText,
    writer: &mut W,
) -> Result<(), ScriptFault>
    requires phase { IsRunnable (P.is_configured runner.old) phase }
    requires moved { IfSome moved (IsRunnable (P.is_configured runner.old)) }
    requires text { text.old ≡ [] }
    requires ready { P.is_ready runner.old }
    ensures runs { RunsItems P.answers runner.old (with_move phase moved)
        (W.contents writer.old) runner.new (W.contents writer.new) result }
    ensures text { OnOk result (text.new ≡ []) }
    ensures same { P.is_configured runner.new ≡ P.is_configured runner.old }
    ensures ready { P.is_ready runner.new }
{
    run_item(alloc, runner, &mut phase, text, writer)?;
    match moved {
        Some(mut moved) => run_item(alloc, runner, &mut moved, text, writer),
        None => Ok(()),
    }
}

// Reads a phase and the move that ends it, runs them and writes their replies. Returns true where the text goes on.
// Where the bytes that came show the end of the phase, the reader is not called.
fn run_next<P: Runner, R: Read, W: Write>(
    alloc: Global,
    runner: &mut P,
    line_reader: &mut LineReader,
    reader: &mut R,
    text: &mut AnswerText,
    writer: &mut W,
) -> Result<bool, ScriptFault>
    requires text { text.old ≡ [] }
    requires ready { P.is_ready runner.old }
    ensures runs { RunsNext (P.is_configured runner.old) P.answers
        line_reader.old runner.old (R.remaining reader.old) (W.contents writer.old)
        line_reader.new runner.new (R.remaining reader.new) (W.contents writer.new) result }
    ensures text { OnOk result (text.new ≡ []) }
    ensures less { result ≡ Ok true → work_left line_reader.new < work_left line_reader.old }
    ensures same { P.is_configured runner.new ≡ P.is_configured runner.old }
    ensures ready { P.is_ready runner.new }
    ensures past { result ≢ Err ScriptFault.ReadFault →
        TakesWithin (R.remaining reader.old) line_reader.old.bytes (R.remaining reader.new) }
    ensures due { shows_phase (P.is_configured runner.old) line_reader.old.unread ≡ true → reader.new ≡ reader.old }
{
    let NextItems {
        phase,
        moved,
        is_last,
    } = read_items(alloc, runner, line_reader, reader)?;
    run_items(alloc, runner, phase, moved, text, writer)?;
    Ok(!is_last)
}

/// Reads a script from `reader`, runs it item by item with `runner`, and writes the replies to `writer`, and nothing
/// else. After the read that brings the end of a phase, the reader is not called again until the replies of the phase
/// are flushed. Where a move ends the phase, the replies of the move are flushed before that too.
pub fn run_script<P: Runner, R: Read, W: Write>(
    alloc: Global,
    runner: &mut P,
    reader: &mut R,
    writer: &mut W,
) -> Result<(), ScriptFault>
    requires { P.is_ready runner.old }
    ensures ready { P.is_ready runner.new }
    ensures runs { RunsScript (P.is_configured runner.old) P.answers
        runner.old (R.remaining reader.old) (W.contents writer.old)
        runner.new (W.contents writer.new) result }

    // Past the limit of bytes it is a read fault, and no other.
    ensures past { result ≢ Err ScriptFault.ReadFault →
        TakesWithin (R.remaining reader.old) 0 (R.remaining reader.new) }
{
    let mut line_reader = LineReader::new(alloc);
    let mut text = AnswerText::new(alloc)?;
    while run_next(alloc, runner, &mut line_reader, reader, &mut text, writer)? {}
    Ok(())
}
