// A row of hints. They are most of what a proof is made of, so they have a loop of their own, which keeps where it stands in registers.
ghost use Rattle.proof_check.specs.Inner.Held.{Between};
ghost use Rattle.proof_check.specs.Inner.Rows.{Rowed};

use crate::hints::{decide, said_by, with_hint};
use crate::undoing::undo;
use crate::{Phase, Progress, Row};
use proof_propagation::Hint;
use proof_propagation::stored::ClauseStore;

// Goes on over hints as long as the clause of each is a conflict or makes a literal true, and hands back the command that follows them. No index is counted: a
// hint has five bytes.
pub fn over_hints(
    store: ClauseStore,
    starts: &[u32],
    marks: &mut [u8],
    trail: &mut [u32],
    p: Progress,
) -> Row
    requires { Between store starts.now marks.old trail.old p }
    ensures { Rowed store.entry starts.now marks.old p marks.new trail.new result }
{
    let mut q = p;
    loop {
        let command = store.command(q.at);
        match said_by(store, starts, marks, q, command) {
            Hint::Conflict => {
                undo(store, starts, marks, trail, q);
                q = with_hint(q, Phase::Conflict, q.decided);
            }
            Hint::Unit(l) => {
                q = decide(marks, trail, q, l);
            }
            Hint::Neither => {
                return Row {
                    progress: q,
                    command,
                };
            }
        }
    }
}
