// One command of a proof after another.
ghost use Rattle.std.specs.Prelude.{◌≡◌, ℕ, ◌+◌, ◌≤◌, List, length};
ghost use Rattle.proof_reader.specs.Command.{command_at};
ghost use Rattle.proof_propagation.specs.declared.Hint.{Hint};
ghost use Rattle.proof_propagation.specs.Inner.Store.{proof_of};
ghost use Rattle.proof_check.specs.Inner.Held.{state_in, ReadyIn, ReadyBut, Between, Turned};
ghost use Rattle.proof_check.specs.Inner.Rows.{said_by};
ghost use Rattle.proof_check.specs.Inner.Begins.{Finished};

use crate::ahead::look_ahead;
use crate::closes::on_close;
use crate::ends::on_end;
use crate::hints::refuse_hint;
use crate::literals::on_literal;
use crate::rows::over_hints;
use crate::{Ended, Progress, Refusal, Turn};
use proof_propagation::stored::ClauseStore;
use proof_reader::Command;

// One command that is not a hint of a row.
fn turn(
    store: ClauseStore,
    base: usize,
    starts: &mut [u32],
    marks: &mut [u8],
    p: Progress,
    command: Command,
) -> Result<Turn, Refusal>
    requires ready_but { ReadyBut store starts.old marks.old p }
    requires base_bound { base ≤ 16777216 }
    ensures { (t : List ℕ) → ReadyIn store.entry starts.old marks.old t p
        → command ≡ command_at (proof_of store.entry) p.at
        → said_by (state_in store.entry starts.old marks.old p) command ≡ Hint.Neither
        → Turned base store.entry starts.old marks.old t p starts.new marks.new t result }
{
    match command {
        Command::Literal(l) => Ok(Turn::More(on_literal(base, store.words, marks, p, l)?)),
        Command::Hint(h) => Err(refuse_hint(base, p, h)),
        Command::Close => Ok(Turn::More(on_close(base, store.words, starts, p)?)),
        Command::End => Ok(Turn::Ended(on_end(store.proof_len(), base, p)?)),
        Command::Unreadable => Err(Refusal::Unreadable(base + p.at)),
    }
}

// Goes on to the end of the proof. No index is counted: a command tells where the next one stands.
pub fn finish(
    store: ClauseStore,
    base: usize,
    starts: &mut [u32],
    marks: &mut [u8],
    trail: &mut [u32],
    p: Progress,
) -> Ended
    requires between { Between store starts.old marks.old trail.old p }
    requires base_bound { base ≤ 16777216 }
    ensures { Finished store.entry base starts.old marks.old p starts.new marks.new trail.new result }
{
    let mut q = p;
    let mut ahead: usize = 0;
    loop {
        let here = q.at - store.closed.len();
        ahead = look_ahead(store, starts, trail, q, ahead, here);
        let row = over_hints(store, starts, marks, trail, q);
        let n = row.progress;
        match turn(store, base, starts, marks, n, row.command) {
            Ok(Turn::More(next)) => q = next,
            Ok(Turn::Ended(tally)) => {
                return Ended {
                    progress: n,
                    verdict: Ok(tally),
                };
            }
            Err(refusal) => {
                return Ended {
                    progress: n,
                    verdict: Err(refusal),
                };
            }
        }
    }
}
