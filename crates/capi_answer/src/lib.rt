// What a caller of the C interface gets to see of an answer: a number returned, and entries of the lent `answer`.
#![tactic(auto)]

mod entries;

ghost use Rattle.std.specs.Prelude.{◌≡◌, ◌≤◌, length};
ghost use Rattle.capi_answer.specs.Entry.{answer_entries};
ghost use Rattle.capi_answer.specs.Reply.{refused, replied, prove_fills, Fills};

use proof_check::Tally;
use refusals::{Row, Tabled};

// The entries that `answer` has at least.
pub const ANSWER_ENTRIES: usize = 16;

// What a call found, told as entries of the answer, from the first on. Those that are not named are left alone.
pub trait Told {
    ghost use Rattle.std.specs.Prelude.{ℕ, List};
    ghost use Rattle.std.proofs.lemmas.List.Edits.{sets};

    ghost entries: { Self → List ℕ };

    fn tell(self, answer: &mut [u64])
        requires { answer_entries ≤ length answer.old }
        ensures { answer.new ≡ sets answer.old 0 (entries self) };
}

// A refusal's row: the number is returned, the place told.
fn fill_refused(row: Row, answer: &mut [u64]) -> u8
    requires { answer_entries ≤ length answer.old }
    ensures { Fills (refused row answer.old) answer.new result }
{
    answer[0] = row.place as u64;
    row.number
}

// What a call answered: what it found is told and 0 returned, or it is refused.
pub fn fill<T: Told, E: Tabled>(answered: Result<T, E>, answer: &mut [u64]) -> u8
    requires { answer_entries ≤ length answer.old }
    ensures { Fills (replied T.entries E.row_of answered answer.old) answer.new result }
{
    match answered {
        Ok(found) => {
            found.tell(answer);
            0
        }
        Err(refusal) => fill_refused(refusal.row(), answer),
    }
}

// What checking a proof answered. Where the buffers do not hold what is asked the answer is left alone.
pub fn fill_prove(checked: Result<Tally, proof::Refusal>, answer: &mut [u64]) -> u8
    requires { answer_entries ≤ length answer.old }
    ensures { Fills (prove_fills checked answer.old) answer.new result }
{
    match checked {
        Ok(tally) => {
            tally.tell(answer);
            0
        }
        Err(proof::Refusal::Proof(refusal)) => fill_refused(refusal.row(), answer),
        Err(proof::Refusal::Unfit) => 254,
    }
}
