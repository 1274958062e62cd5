// The run of a routine on an input list.
#![tactic(auto)]

mod admission;
mod buffers;

ghost use Rattle.run.specs.Answer.{RunAnswers};
ghost use Rattle.run.specs.Leftovers.{AnyLeftovers};

use run_state::Stop;
use run_state::runs::run_to_end;
use slices::Buffer;

// Why there is no run.
#[derive(Clone, Copy)]
pub enum Refusal {
    Routine(routine::Refusal),
    // so many input words were given
    InputCount(usize),
    // the input word of this number is too great
    Input(usize),
    TooSmall(Buffer),
}

// Runs a routine on an input list, from whatever it gives the variables to begin with, and tells the access that stopped the run, if one did. The values
// and the trail are handed out for a stop as for an end; a refusal leaves both buffers as they were.
#[tactic(auto, using(crate::proofs::Admitting::run_routine, crate::proofs::Admitting::values_fit, crate::proofs::Admitting::trail_fits, crate::proofs::Admitting::answers_refusal, crate::proofs::Leftovers::any_leftovers))]
pub fn run(
    routine: &[u8],
    inputs: &[u32],
    values: &mut [u32],
    trail: &mut [u8],
) -> Result<Option<Stop>, Refusal>
    ensures run_answers { RunAnswers routine.now inputs.now values.old trail.old values.new trail.new result }
    ensures any_leftovers { AnyLeftovers routine.now }
{
    let accepted = admission::admit(routine, inputs, values.len(), trail.len())?;
    let state = run_to_end(routine, inputs, accepted.header);
    buffers::hand_out(&state.values, accepted.header.variables, values);
    buffers::hand_out(&state.trail, accepted.counts.ifs, trail);
    Ok(state.stop)
}
