// What may come in a phase of a step.
ghost use Rattle.std.specs.Prelude.{◌≡◌};
ghost use Rattle.proof_check.specs.Phase.{going, in_literals, conflicted, phase_after};

use crate::Phase;

// The empty clause is not closed yet.
pub fn is_going(phase: Phase) -> bool
    ensures { result ≡ going phase }
{
    phase != Phase::Empty
}

// No hint of the step came yet.
pub fn is_in_literals(phase: Phase) -> bool
    ensures { result ≡ in_literals phase }
{
    phase == Phase::Literals
}

// The step's conflict came.
pub fn is_conflicted(phase: Phase) -> bool
    ensures { result ≡ conflicted phase }
{
    phase == Phase::Conflict
}

// The phase after a clause of so many literals was closed.
pub fn phase_after(literals: usize) -> Phase
    ensures { result ≡ phase_after literals }
{
    if literals == 0 {
        Phase::Empty
    } else {
        Phase::Literals
    }
}
