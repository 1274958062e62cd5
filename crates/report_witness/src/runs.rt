// The run of the witness: 10, 13 or 14, then 15.
ghost use Rattle.std.specs.Prelude.{◌≡◌};
ghost use Rattle.routine.specs.Decode.{commands_in};
ghost use Rattle.routine.specs.Inner.Known.{IsRoutineWith};
ghost use Rattle.run_state.specs.Side.{is_on};
ghost use Rattle.report_witness.specs.Witness.{by_course, witness_of};

use crate::{Lead, Refusal};
use lead::Target;
use routine::Accepted;
use routine_faults::words::input_count;
use routine_header::{Header, size_of_array};
use run_inputs::check_words;
use run_state::runs::run_to_access;
use run_state::states::lies_at;
use run_state::{Course, Landing, Side};

// Whether an index that lies there lies on the side of a number. The definition is of every number: the side is a byte of a lead.
fn is_on(side: u8, lies: Option<Side>) -> bool
    ensures { result ≡ is_on side lies }
{
    match lies {
        None => false,
        Some(Side::Below) => side == 0,
        Some(Side::Above) => side == 1,
    }
}

// 13 or 14, then 15.
fn by_course(routine: &[u8], h: Header, t: Target, course: Course) -> Result<Landing, Refusal>
    ensures { result ≡ by_course routine.now h t course }
{
    match course {
        Course::Astray(number) => Err(Refusal::Astray(number)),
        Course::Passing => Err(Refusal::Missed(t.access)),
        Course::Arrived(landing) => {
            let size = size_of_array(routine, h, landing.array);
            if is_on(t.side, lies_at(size, landing.index)) {
                Ok(landing)
            } else {
                Err(Refusal::OffSide(t.access))
            }
        }
    }
}

// Runs the witness of a lead on a routine with these counts, as far as the access that the lead names: where it lands there.
pub fn run_witness(routine: &[u8], lead: Lead, accepted: Accepted) -> Result<Landing, Refusal>
    requires { IsRoutineWith routine.now accepted.header accepted.counts }
    ensures { result ≡ witness_of routine.now lead accepted.header (commands_in routine.now) accepted.counts }
{
    let h = accepted.header;
    let k = accepted.counts;
    let n = input_count(h, k);
    let ifs = k.ifs as usize;
    let inputs = &lead.inputs[..n];
    check_words(routine, inputs, h, k).map_err(|word| Refusal::Input(word.0))?;
    let t = lead.target;
    let course = run_to_access(routine, inputs, &lead.decisions[..ifs], t.access, h);
    by_course(routine, h, t, course)
}
