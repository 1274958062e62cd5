// The space that a translation takes, told before any is lent for it.
#![tactic(auto)]

pub mod whole;

ghost use Rattle.std.specs.Prelude.{◌≡◌};
ghost use Rattle.lead.specs.Lead.{target_of};
ghost use Rattle.translation_space.specs.Space.{space_answer, SpaceBounded};

use lead::{Target, admit};
use translation_meaning::Size;

// Tells how many clauses, words and variables the translation of a claim takes. No buffer is lent, so 1 to 8, 11 and 12 are all that is refused.
// Access and side are numbers, as C gives them.
#[tactic(auto, using(crate::proofs::Telling::is_routine, crate::proofs::Telling::space_refused, crate::proofs::Telling::space_told, crate::proofs::Telling::space_bounded))]
pub fn space(routine: &[u8], access: u8, side: u8, decisions: &[u8]) -> Result<Size, lead::Refusal>
    ensures value { result ≡ space_answer routine.now (target_of access side) decisions.now }
    ensures space_bounded { SpaceBounded routine.now result }
{
    let t = Target { access, side };
    let h = admit(routine, t, decisions)?;
    Ok(whole::count(routine, h, t, decisions))
}
