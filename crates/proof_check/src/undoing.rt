// The undoing of a step's marks, in time by what the step named.
ghost use Rattle.std.specs.Prelude.{◌≡◌, ◌<◌, ◌≤◌, length, replicate};
ghost use Rattle.proof_propagation.specs.Inner.Store.{proof_of};
ghost use Rattle.proof_propagation.specs.Inner.Clear.{clear};
ghost use Rattle.proof_reader.specs.Command.{command_at};
ghost use Rattle.proof_reader.specs.Inner.Runs.{RunsFor};
ghost use Rattle.proof_check.specs.Inner.Undo.{touches, Clean};
ghost use Rattle.proof_check.specs.Inner.Held.{clauses_in, Holds, Between};

use crate::Progress;
use proof_propagation::clears::{clear_literal, clear_literals};
use proof_propagation::stored::ClauseStore;
use proof_reader::Command;

// Clears what the command at an offset may have marked.
fn clear_command(store: ClauseStore, starts: &[u32], marks: &mut [u8], p: Progress, at: usize)
    requires holds { Holds store starts.now (length marks.old) p }
    requires closed_len_bound { length store.closed.now ≤ at }
    ensures { marks.new ≡ clear marks.old (touches (clauses_in store.entry starts.now p) (command_at (proof_of store.entry) at)) }
{
    let command = store.command(at);
    match command {
        Command::Literal(l) => clear_literal(marks, l),
        Command::Hint(h) => {
            let i = h as usize;
            if i < p.count {
                store.clear(starts, marks, p.given, i);
            }
        }
        Command::Close => {}
        Command::End => {}
        Command::Unreadable => {}
    }
}

// Reads the step's commands again, each of five bytes, from the last to the first, and clears what they may have marked. `rev` over
// their number would say no more.
fn clear_step(store: ClauseStore, starts: &[u32], marks: &mut [u8], p: Progress)
    requires holds { Holds store starts.now (length marks.old) p }
    requires clean { Clean (proof_of store) p.begin (clauses_in store starts.now p) marks.old p.at }
    ensures { marks.new ≡ replicate (length marks.old) 0 }
{
    let mut to = p.at;
    while p.begin < to {
        to -= 5;
        clear_command(store, starts, marks, p, to);
    }
}

// Every variable is undecided again: by the trail and the step's own literals, or, where the trail had no room for all, by the step's commands.
pub fn undo(store: ClauseStore, starts: &[u32], marks: &mut [u8], trail: &[u32], p: Progress)
    requires between { Between store starts.now marks.old trail.now p }
    requires runs_for { RunsFor (proof_of store) p.begin p.literals }
    ensures { marks.new ≡ replicate (length marks.old) 0 }
{
    let decided = p.decided;
    if decided <= trail.len() {
        clear_literals(&trail[..decided], marks);
        clear_literals(store.run(p.begin), marks);
    } else {
        clear_step(store, starts, marks, p);
    }
}
