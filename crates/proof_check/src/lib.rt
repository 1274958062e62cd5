// The checking of a proof by hinted unit propagation.
#![tactic(auto)]

mod ahead;
mod closes;
mod ends;
mod hints;
mod literals;
mod phases;
mod rows;
mod turns;
mod undoing;

ghost use Rattle.std.specs.Prelude.{◌≡◌};
ghost use Rattle.proof_propagation.specs.Stored.{clauses_of};
ghost use Rattle.proof_check.specs.Inner.Begins.{Begins};
ghost use Rattle.proof_check.specs.Check.{check_proof};
ghost use Rattle.proof_check.specs.Lent.{limits_of};
ghost use Rattle.proof_check.specs.Sound.{Refutes};

use proof_propagation::stored::ClauseStore;
use proof_reader::Command;
use turns::finish;

// Where a step stands.
#[derive(Clone, Copy, PartialEq, Eq)]
pub enum Phase {
    // among its literals
    Literals,
    // among its hints
    Hints,
    // after the conflict
    Conflict,
    // after the empty clause was closed: there is no further step
    Empty,
}

// Where the check stands: the offset of the next command, and of the step's first; the clauses that were given, the words that all would take, and
// their number; the step's literals, and those that its hints made true; its phase; the steps closed and the hints read.
#[derive(Clone, Copy)]
pub struct Progress {
    pub at: usize,
    pub begin: usize,
    pub given: usize,
    pub used: usize,
    pub count: usize,
    pub literals: usize,
    pub decided: usize,
    pub phase: Phase,
    pub steps: usize,
    pub hints: usize,
}

// Why a proof is turned down, with the place of its command, or of the byte after the end.
#[derive(Clone, Copy)]
pub enum Refusal {
    // unknown, cut short or missing
    Unreadable(usize),
    // a literal not of a variable, twice, with its opposite, or after a hint
    Literal(usize),
    // a hint to a clause that there is not yet
    NoClause(usize),
    // a hint to a clause that is neither a conflict nor makes one literal true
    Neither(usize),
    // a close without a conflict
    NoConflict(usize),
    // a hint after the conflict
    AfterConflict(usize),
    // an end without the empty clause, or a command after it
    OutOfPlace(usize),
    // bytes after the end
    Trailing(usize),
    // no word or no entry is left
    Full(usize),
}

// What an accepted proof is made of: the steps that it closes, and the hints that it has.
#[derive(Clone, Copy)]
pub struct Tally {
    pub steps: usize,
    pub hints: usize,
}

// Where a row of hints ends, and the command that follows it.
#[derive(Clone, Copy)]
pub struct Row {
    pub progress: Progress,
    pub command: Command,
}

// What follows a command that is not turned down.
#[derive(Clone, Copy)]
pub enum Turn {
    More(Progress),
    Ended(Tally),
}

// What is said of a proof, and where the check stood when it was said.
#[derive(Clone, Copy)]
pub struct Ended {
    pub progress: Progress,
    pub verdict: Result<Tally, Refusal>,
}

// The literals that a step's hints may make true so that its marks are undone by a list of them: a step with more is read again. Nothing is allocated,
// so that their number stands beside the array.
const TRAIL: usize = 4096;

// Checks the proof that begins at the offset `from` of these bytes, and adds `base` to each offset that it tells, over the first `count` clauses, which stand in the
// words and take the first `used` of them. Room is what is lent: all words, all starts, and a mark for each variable and one more; every variable begins
// undecided. A step's clause stays where it stands in the proof, with its offset in starts; the words that it would take are counted.
pub fn check_proof(
    proof: &[u8],
    from: usize,
    base: usize,
    count: usize,
    used: usize,
    words: &[u32],
    starts: &mut [u32],
    marks: &mut [u8],
) -> Result<Tally, Refusal>
    requires { Begins proof.now from base count used words.now starts.old marks.old }
    ensures value { result ≡ (check_proof (clauses_of words.now starts.old count) (limits_of base words.now starts.old marks.old) proof.now from).verdict }
    ensures refutes { Refutes (clauses_of words.now starts.old count) result }
{
    marks.fill(0);
    let mut trail = [0u32; TRAIL];
    let p = Progress {
        at: from,
        begin: from,
        given: count,
        used,
        count,
        literals: 0,
        decided: 0,
        phase: Phase::Literals,
        steps: 0,
        hints: 0,
    };
    let store = ClauseStore {
        words,
        closed: &proof[..0],
        proof,
    };
    let checked = finish(store, base, starts, marks, &mut trail, p);
    checked.verdict
}
