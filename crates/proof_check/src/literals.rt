// A literal of a step.
ghost use Rattle.std.specs.Prelude.{◌≡◌, ℕ, ◌+◌, ◌<◌, ◌≤◌, List, length};
ghost use Rattle.proof_reader.specs.Command.{command_at};
ghost use Rattle.proof_reader.specs.declared.Command.{Command};
ghost use Rattle.proof_check.specs.Lent.{limits_of};
ghost use Rattle.proof_check.specs.Check.{on_literal};
ghost use Rattle.proof_check.specs.Inner.Held.{state_of, Ready, turn_of, Did, with_literal};

use crate::phases::{is_going, is_in_literals};
use crate::{Phase, Progress, Refusal};
use proof_propagation::marks::false_mark;

fn with_literal(p: Progress) -> Progress
    requires { (p.at ≤ 16777216) × (p.literals ≤ p.at) }
    ensures { result ≡ with_literal p }
{
    Progress {
        at: p.at + 5,
        literals: p.literals + 1,
        phase: Phase::Literals,
        ..p
    }
}

// It stands in the proof, and its variable is marked. A variable that has a mark was given already: hints come after.
pub fn on_literal(
    base: usize,
    words: &[u32],
    marks: &mut [u8],
    p: Progress,
    l: u32,
) -> Result<Progress, Refusal>
    requires { (p.used ≤ length words.now) × (length words.now ≤ 16777216) × (p.at ≤ 16777216) × (p.literals ≤ p.at) × (base ≤ 16777216) }
    ensures { (s t r : List ℕ) → Ready words.now s marks.old t r p → command_at r p.at ≡ Command.Literal l →
        Did words.now s marks.old t r p s marks.new t (turn_of result)
        (on_literal (limits_of base words.now s marks.old) (state_of words.now s marks.old r p) l) }
{
    let place = base + p.at;
    let phase = p.phase;
    if !is_going(phase) {
        return Err(Refusal::OutOfPlace(place));
    }
    if !is_in_literals(phase) {
        return Err(Refusal::Literal(place));
    }
    if l < 2 {
        return Err(Refusal::Literal(place));
    }
    let v = (l / 2) as usize;
    if marks.len() <= v {
        return Err(Refusal::Literal(place));
    }
    if marks[v] != 0 {
        return Err(Refusal::Literal(place));
    }
    if words.len() <= p.used + 1 + p.literals {
        return Err(Refusal::Full(place));
    }
    marks[v] = false_mark(l);
    Ok(with_literal(p))
}
