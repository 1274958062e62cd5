// The check of a proof for anyone who asks, whatever the buffers hold.
#![tactic(auto)]

mod fits;
mod parts;

ghost use Rattle.proof_propagation.specs.Stored.{clauses_of};
ghost use Rattle.proof.specs.Checking.{part, Checks, Unsatisfied};

use parts::check_parts;
use proof_check::Tally;
use slices::usable;

// Why a check that anyone asks for does not accept.
#[derive(Clone, Copy)]
pub enum Refusal {
    // the proof is turned down
    Proof(proof_check::Refusal),
    // the buffers do not hold what is asked
    Unfit,
}

// Checks a proof over any buffers, of which only the first 16,777,216 entries are used. It looks first whether the report is not too long, whether there is a mark
// for each variable and one more, and whether so many clauses of these variables stand in words one after another from the beginning, with their offsets in
// starts; where not, it is Unfit, and the buffers are as they were. Where they do, starts and marks are zeroed.
pub fn prove(
    report: &[u8],
    from: usize,
    clauses: u32,
    variables: u32,
    words: &[u32],
    starts: &mut [u32],
    marks: &mut [u8],
) -> Result<Tally, Refusal>
    ensures checks { Checks words.now starts.old marks.old report.now from clauses variables starts.new marks.new result }
    ensures unsatisfied { Unsatisfied (clauses_of (part words.now) (part starts.old) clauses) result }
{
    let w = usable(words.len());
    let s = usable(starts.len());
    let m = usable(marks.len());
    if 16777216 < report.len() {
        return Err(Refusal::Unfit);
    }
    if report.len() < from {
        return Err(Refusal::Unfit);
    }
    if m < variables as usize + 1 {
        return Err(Refusal::Unfit);
    }
    check_parts(
        report,
        from,
        clauses as usize,
        variables as usize,
        &words[..w],
        &mut starts[..s],
        &mut marks[..m],
    )
}
