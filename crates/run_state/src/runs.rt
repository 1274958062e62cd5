// A whole run, and one as far as a named access: both follow it.
ghost use Rattle.std.specs.Prelude.{◌≡◌};
ghost use Rattle.routine.specs.Decode.{IsRoutine, commands_in};
ghost use Rattle.routine.specs.Access.{ifs_before};
ghost use Rattle.run_state.specs.Run.{run_of};
ghost use Rattle.run_state.specs.Course.{course};

use crate::ways::follow;
use crate::{Course, Goal, State};
use routine::seeking::ifs_before;
use routine_header::Header;

// The state that the run of a whole routine leaves. No decision matters to it.
#[tactic(auto, using(crate::proofs::Laws::course_end))]
pub fn run_to_end(routine: &[u8], inputs: &[u32], h: Header) -> State
    requires { IsRoutine routine.now h }
    ensures { result ≡ (run_of routine.now inputs.now h (commands_in routine.now)).state }
{
    let decisions = [2u8; 1];
    let w = follow(routine, inputs, &decisions, Goal::End, h);
    w.state
}

// The course of the run as far as the access of this number.
pub fn run_to_access(
    routine: &[u8],
    inputs: &[u32],
    decisions: &[u8],
    access: u8,
    h: Header,
) -> Course
    requires { IsRoutine routine.now h }
    ensures { result ≡ course decisions.now access (ifs_before (commands_in routine.now) access) (run_of routine.now inputs.now h (commands_in routine.now)).events }
{
    let before = ifs_before(routine, h, access);
    let goal = Goal::Access {
        number: access,
        before,
    };
    let w = follow(routine, inputs, decisions, goal, h);
    w.course
}
