// A check over the parts of the buffers that are used.
ghost use Rattle.std.specs.Prelude.{◌≡◌, ◌+◌, ◌≤◌, length};
ghost use Rattle.proof_propagation.specs.Stored.{clauses_of};
ghost use Rattle.proof.specs.Checking.{Unsatisfied};
ghost use Rattle.proof.specs.Inner.Parts.{InParts};

use crate::Refusal;
use crate::fits::stand;
use proof_check::{Tally, check_proof};

// Looks first whether the clauses stand there; nothing is written where they do not.
pub fn check_parts(
    report: &[u8],
    from: usize,
    count: usize,
    variables: usize,
    words: &[u32],
    starts: &mut [u32],
    marks: &mut [u8],
) -> Result<Tally, Refusal>
    requires { (length words.now ≤ 16777216) × (variables + 1 ≤ length marks.old) × (from ≤ length report.now) × (length report.now ≤ 16777216) }
    ensures in_parts { InParts words.now starts.old marks.old report.now from count variables starts.new marks.new result }
    ensures unsatisfied { Unsatisfied (clauses_of words.now starts.old count) result }
{
    let used = stand(words, starts, variables, count).ok_or(Refusal::Unfit)?;
    let m = variables + 1;
    let verdict = check_proof(report, from, 0, count, used, words, starts, &mut marks[..m]);
    starts.fill(0);
    marks.fill(0);
    verdict.map_err(|refusal| Refusal::Proof(refusal))
}
