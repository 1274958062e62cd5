// The translation of a claim into clauses.
#![tactic(auto)]

pub mod fitting;

ghost use Rattle.lead.specs.Lead.{target_of};
ghost use Rattle.translation_meaning.specs.Faithful.{Demand2};
ghost use Rattle.translation.specs.Answer.{TranslationAnswers};
ghost use Rattle.translation.specs.Foretold.{Foretold};

use lead::{Target, admit};
use slices::Buffer;
use translation_meaning::Size;

// Why there is no translation.
#[derive(Clone, Copy)]
pub enum Refusal {
    Lead(lead::Refusal),
    TooSmall(Buffer),
}

// Translates the claim that every run which comes to the access by the decisions (0 first arm, 1 else, 2 free) has its index there on the side. The
// clauses stand in words as a count and the literals, the offset of each count in starts; a refusal leaves both buffers as they were. Access and side are numbers, as C
// gives them.
#[tactic(auto, using(crate::proofs::Admitting::is_routine, crate::proofs::Admitting::refuses, crate::proofs::Admitting::fits, crate::proofs::Foretelling::refusal_foretold, crate::proofs::Foretelling::fit_foretold, translation_meaning::proofs::Demand::demand))]
pub fn translate(
    routine: &[u8],
    access: u8,
    side: u8,
    decisions: &[u8],
    words: &mut [u32],
    starts: &mut [u32],
) -> Result<Size, Refusal>
    ensures translation_answers { TranslationAnswers routine.now (target_of access side) decisions.now words.old starts.old words.new starts.new result }
    ensures foretold { Foretold routine.now (target_of access side) decisions.now words.old starts.old result }
    ensures demand2 { Demand2 routine.now (target_of access side) decisions.now }
{
    let t = Target { access, side };
    let h = admit(routine, t, decisions).map_err(Refusal::Lead)?;
    fitting::fit(routine, h, t, decisions, words, starts)
}
