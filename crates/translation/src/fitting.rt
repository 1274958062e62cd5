// The whole translation: counted first, and written where it fits.
ghost use Rattle.routine.specs.Decode.{IsRoutine};
ghost use Rattle.translation.specs.Inner.Fitted.{Fitted};

use crate::Refusal;
use lead::Target;
use routine_header::Header;
use slices::{Buffer, usable};
use translation_meaning::Size;
use translation_space::whole::{count, make};

// 16: words, then starts. What is needed is counted first, so that a refusal leaves both as they were.
#[tactic(auto, using(crate::proofs::Storing::words_short, crate::proofs::Storing::starts_short, crate::proofs::Storing::both_fit))]
pub fn fit(
    routine: &[u8],
    h: Header,
    t: Target,
    decisions: &[u8],
    words: &mut [u32],
    starts: &mut [u32],
) -> Result<Size, Refusal>
    requires { IsRoutine routine.now h }
    ensures { Fitted routine.now h t decisions.now words.old starts.old words.new starts.new result }
{
    let w = usable(words.len());
    let c = usable(starts.len());
    let need = count(routine, h, t, decisions);
    if w < need.words as usize {
        return Err(Refusal::TooSmall(Buffer::Words));
    }
    if c < need.clauses as usize {
        return Err(Refusal::TooSmall(Buffer::Starts));
    }
    Ok(make(&mut words[..w], &mut starts[..c], routine, h, t, decisions))
}
