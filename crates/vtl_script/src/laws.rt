//! Laws of scripts.
ghost use Rattle.vtl_script.specs.InOrder.{OneHostInOrder, NoMoveIsRun};

/// Where all commands of a script are from one host, and no line is refused, they are run in the order of their lines,
/// however the lines are split into phases. Where no line asks for a move, no move is run.
pub fn one_host_runs_in_order()
    ensures order { OneHostInOrder }
    ensures moves { NoMoveIsRun }
{}
