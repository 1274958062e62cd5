// The lead of a claim: an access, a side and a decision for each if. Whether a routine has such a claim: 1 to 8, then 11 and 12.
#![tactic(auto)]

ghost use Rattle.std.specs.Prelude.{◌≡◌, nat_lt, position};
ghost use Rattle.lead.specs.Lead.{admitted_lead};
ghost use Rattle.lead.specs.Inner.Admitted.{claim_admitted};

use routine_faults::Counts;
use routine_faults::steps::accesses_of;
use routine_header::Header;

// What a claim names: an access, and a side (0 below, 1 above). Numbers, as C and the bytes of a report give them: what is out of range is refused by 12.
#[derive(Clone, Copy, PartialEq, Eq)]
pub struct Target {
    pub access: u8,
    pub side: u8,
}

// Why there is no such claim.
#[derive(Clone, Copy)]
pub enum Refusal {
    Routine(routine::Refusal),
    // so many decisions were given
    DecisionCount(usize),
    // access, side or a decision is out of range, at this offset of a lead
    OutOfRange(usize),
}

// The number of the first decision above 2, if there is one.
fn odd_decision(decisions: &[u8]) -> Option<usize>
    ensures { result ≡ position (λ d. nat_lt 2 d) decisions.now }
{
    decisions.iter().position(|d| 2 < *d)
}

// 11, then 12, for a routine with these counts.
#[tactic(auto, using(crate::proofs::Leads::odd_at, crate::proofs::Leads::none_odd), unfolding(crate::specs::Lead::admitted_lead))]
pub fn admit_lead(k: Counts, t: Target, decisions: &[u8]) -> Result<(), Refusal>
    ensures { result ≡ admitted_lead t decisions.now k }
{
    if decisions.len() != usize::from(k.ifs) {
        return Err(Refusal::DecisionCount(decisions.len()));
    }
    if accesses_of(k) <= u32::from(t.access) {
        return Err(Refusal::OutOfRange(0));
    }
    if 1 < t.side {
        return Err(Refusal::OutOfRange(1));
    }
    match odd_decision(decisions) {
        Some(odd) => Err(Refusal::OutOfRange(2 + odd)),
        None => Ok(()),
    }
}

// Whether there is a claim to translate.
#[tactic(auto, using(crate::proofs::Leads::no_routine, crate::proofs::Leads::lead_refused, crate::proofs::Leads::lead_passes))]
pub fn admit(routine: &[u8], t: Target, decisions: &[u8]) -> Result<Header, Refusal>
    ensures { result ≡ claim_admitted routine.now t decisions.now }
{
    let accepted = routine::check(routine).map_err(Refusal::Routine)?;
    admit_lead(accepted.counts, t, decisions)?;
    Ok(accepted.header)
}
