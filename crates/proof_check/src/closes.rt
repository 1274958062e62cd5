// The close of a step: its clause takes the next number. It stands in the proof, and its variables are undecided since the conflict.
ghost use Rattle.std.specs.Prelude.{◌≡◌, ℕ, ◌^◌, ◌<◌, ◌≤◌, List, length};
ghost use Rattle.proof_reader.specs.Command.{command_at};
ghost use Rattle.proof_reader.specs.declared.Command.{Command};
ghost use Rattle.proof_check.specs.Lent.{limits_of};
ghost use Rattle.proof_check.specs.Check.{on_close};
ghost use Rattle.proof_check.specs.Inner.Held.{state_of, Ready, turn_of, Did, with_close};

use crate::phases::{is_conflicted, is_going, phase_after};
use crate::{Phase, Progress, Refusal};

fn with_close(p: Progress, phase: Phase) -> Progress
    requires { (p.at ≤ 16777216) × (p.used ≤ 16777216) × (p.literals ≤ p.at) × (p.count < 2 ^ 62) × (p.steps ≤ p.at) }
    ensures { result ≡ with_close p phase }
{
    Progress {
        at: p.at + 1,
        begin: p.at + 1,
        used: p.used + 1 + p.literals,
        count: p.count + 1,
        literals: 0,
        decided: 0,
        phase,
        steps: p.steps + 1,
        ..p
    }
}

pub fn on_close(
    base: usize,
    words: &[u32],
    starts: &mut [u32],
    p: Progress,
) -> Result<Progress, Refusal>
    requires { (p.used ≤ length words.now) × (length words.now ≤ 16777216) × (p.at ≤ 16777216) × (p.begin ≤ p.at) × (p.literals ≤ p.at) × (p.steps ≤ p.at) × (base ≤ 16777216) }
    ensures { (m t r : List ℕ) → Ready words.now starts.old m t r p → command_at r p.at ≡ Command.Close →
        Did words.now starts.old m t r p starts.new m t (turn_of result)
        (on_close (limits_of base words.now starts.old m) (state_of words.now starts.old m r p)) }
{
    let place = base + p.at;
    let phase = p.phase;
    if !is_going(phase) {
        return Err(Refusal::OutOfPlace(place));
    }
    if !is_conflicted(phase) {
        return Err(Refusal::NoConflict(place));
    }
    if words.len() < p.used + 1 + p.literals {
        return Err(Refusal::Full(place));
    }
    let count = p.count;
    if starts.len() <= count {
        return Err(Refusal::Full(place));
    }
    starts[count] = p.begin as u32;
    Ok(with_close(p, phase_after(p.literals)))
}
