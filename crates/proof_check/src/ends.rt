// The end of a proof.
ghost use Rattle.std.specs.Prelude.{◌≡◌, ℕ, ◌≤◌, List};
ghost use Rattle.std.proofs.Math.ListN as Lists;
ghost use Rattle.proof_check.specs.State.{stop};
ghost use Rattle.proof_check.specs.Check.{on_end};
ghost use Rattle.proof_check.specs.Lent.{limits_of};
ghost use Rattle.proof_check.specs.Inner.Held.{state_of};

use crate::phases::is_going;
use crate::{Progress, Refusal, Tally};

// It comes right after the empty clause, and last in the proof, which has so many bytes.
pub fn on_end(length: usize, base: usize, p: Progress) -> Result<Tally, Refusal>
    requires { (p.at ≤ 16777216) × (base ≤ 16777216) }
    ensures { (w s m r : List ℕ) → length ≡ Lists.length r → stop result ≡ on_end (limits_of base w s m) r (state_of w s m r p) }
{
    let place = base + p.at;
    let phase = p.phase;
    if is_going(phase) {
        return Err(Refusal::OutOfPlace(place));
    }
    if p.at + 1 < length {
        return Err(Refusal::Trailing(place + 1));
    }
    Ok(Tally {
        steps: p.steps,
        hints: p.hints,
    })
}
