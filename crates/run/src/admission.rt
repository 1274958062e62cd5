// Whether there is a run.
ghost use Rattle.std.specs.Prelude.{◌≡◌, length};
ghost use Rattle.routine.specs.Decode.{commands_in};
ghost use Rattle.routine.specs.Inner.Known.{IsRoutineWith};
ghost use Rattle.run_inputs.specs.Inputs.{listed};
ghost use Rattle.run.specs.Inner.Admitted.{run_admitted, admitted_inputs, admitted_room};

use crate::Refusal;
use routine::Accepted;
use run_inputs::check_inputs;
use slices::Buffer;

// 9 and 10: one word for each variable and each read, and none too great.
fn admit_inputs(routine: &[u8], inputs: &[u32], accepted: Accepted) -> Result<(), Refusal>
    requires { IsRoutineWith routine.now accepted.header accepted.counts }
    ensures { result ≡ admitted_inputs (length inputs.now) (listed routine.now inputs.now accepted.header (commands_in routine.now) accepted.counts) }
{
    let checked = check_inputs(routine, inputs, accepted.header, accepted.counts);
    checked.map_err(|refusal| match refusal {
        run_inputs::Refusal::Miscounted => Refusal::InputCount(inputs.len()),
        run_inputs::Refusal::TooGreat(n) => Refusal::Input(n),
    })
}

// 16: a value for each variable, a trail byte for each if.
#[tactic(auto, unfolding(crate::specs::Inner::Admitted::admitted_room))]
fn admit_room(accepted: Accepted, values: usize, trail: usize) -> Result<(), Refusal>
    ensures { result ≡ admitted_room values trail accepted.header accepted.counts }
{
    if values < usize::from(accepted.header.variables) {
        return Err(Refusal::TooSmall(Buffer::Values));
    }
    if trail < usize::from(accepted.counts.ifs) {
        return Err(Refusal::TooSmall(Buffer::Trail));
    }
    Ok(())
}

// Whether there is a run: 1 to 8, then 9, 10 and 16.
#[tactic(auto, using(crate::proofs::Admitting::is_counted, crate::proofs::Admitting::no_routine, crate::proofs::Admitting::inputs_refused, crate::proofs::Admitting::room_refused, crate::proofs::Admitting::roomed))]
pub fn admit(
    routine: &[u8],
    inputs: &[u32],
    values: usize,
    trail: usize,
) -> Result<Accepted, Refusal>
    ensures { result ≡ run_admitted routine.now inputs.now values trail }
{
    let accepted = routine::check(routine).map_err(Refusal::Routine)?;
    admit_inputs(routine, inputs, accepted)?;
    admit_room(accepted, values, trail)?;
    Ok(accepted)
}
