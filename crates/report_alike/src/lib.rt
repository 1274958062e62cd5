// Whether two reports on one routine are alike: by what they name, and by what they decide before it.
#![tactic(auto)]

mod pairs;

ghost use Rattle.std.specs.Prelude.{◌≡◌};
ghost use Rattle.report_alike.specs.Alike.{alike};
ghost use Rattle.report_alike.specs.OneFinding.{OneFinding};

use report_witness::Refusal;

// Whether two reports name the same access and the same side, with equal decisions at every if that stands before that access in the text.
pub fn alike(routine: &[u8], first: &[u8], second: &[u8]) -> Result<bool, Refusal>
    ensures value { result ≡ alike routine.now first.now second.now }
    ensures one_finding { OneFinding routine.now first.now second.now result }
{
    match routine::check(routine) {
        Err(refusal) => Err(Refusal::Lead(lead::Refusal::Routine(refusal))),
        Ok(accepted) => pairs::compare(routine, first, second, accepted),
    }
}
