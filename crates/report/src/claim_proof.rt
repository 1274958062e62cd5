// The proof of a claim: 16, then the check of the proof over the claim's clauses.
ghost use Rattle.std.specs.Prelude.{◌≡◌, ◌≤◌, length};
ghost use Rattle.routine.specs.Decode.{commands_in};
ghost use Rattle.routine.specs.Inner.Known.{IsRoutineWith};
ghost use Rattle.translation_meaning.specs.Translation.{translation_of};
ghost use Rattle.proof_check.specs.Inner.Begins.{Begins};
ghost use Rattle.proof_check.specs.Lent.{limits_of};
ghost use Rattle.proof_check.specs.Check.{check_proof};
ghost use Rattle.proof_propagation.specs.Stored.{clauses_of};
ghost use Rattle.report_witness.specs.Lead.{decisions_of};
ghost use Rattle.report_judgement.specs.Proof.{by_verdict, proved_by};
ghost use Rattle.report.specs.Inner.Parts.{room_of};
ghost use Rattle.report.specs.Inner.Translation.{by_translation};

use proof_check::{Tally, check_proof};
use report_judgement::Refusal;
use report_witness::Lead;
use routine::Accepted;
use slices::Buffer;
use translation::fitting::fit;
use translation_meaning::Size;

// Why there is no translation.
fn by_translation(refusal: translation::Refusal) -> Refusal
    ensures { result ≡ by_translation refusal }
{
    match refusal {
        translation::Refusal::Lead(inner) => Refusal::Witness(report_witness::Refusal::Lead(inner)),
        translation::Refusal::TooSmall(buffer) => Refusal::TooSmall(buffer),
    }
}

// Checks the proof from an offset on, over the clauses of a translation of this size.
fn check(
    report: &[u8],
    from: usize,
    base: usize,
    size: Size,
    words: &[u32],
    starts: &mut [u32],
    marks: &mut [u8],
) -> Result<Tally, Refusal>
    requires { Begins report.now from base size.clauses size.words words.now starts.old marks.old }
    ensures { result ≡ by_verdict (check_proof (clauses_of words.now starts.old size.clauses) (limits_of base words.now starts.old marks.old) report.now from).verdict }
{
    let clauses = size.clauses as usize;
    let used = size.words as usize;
    check_proof(report, from, base, clauses, used, words, starts, marks).map_err(Refusal::Proof)
}

// The translation, the room for marks, values and trail, and the proof, which begins at an offset of the bytes and whose places are offsets plus `base`.
pub fn prove(
    routine: &[u8],
    report: &[u8],
    from: usize,
    base: usize,
    accepted: Accepted,
    lead: Lead,
    words: &mut [u32],
    starts: &mut [u32],
    marks: &mut [u8],
    values: usize,
    trail: usize,
) -> Result<Tally, Refusal>
    requires { IsRoutineWith routine.now accepted.header accepted.counts × (from ≤ length report.now) × (length report.now ≤ 16777216) × (base ≤ 16777216) × (length words.old ≤ 16777216) × (length starts.old ≤ 16777216) }
    ensures { result ≡ proved_by report.now from base (room_of words.old starts.old marks.old values trail) accepted.header accepted.counts (translation_of routine.now lead.target (decisions_of lead accepted.counts) accepted.header (commands_in routine.now)) }
{
    let h = accepted.header;
    let ifs = accepted.counts.ifs as usize;
    let decisions = &lead.decisions[..ifs];
    let size = fit(routine, h, lead.target, decisions, words, starts).map_err(by_translation)?;
    let m = size.variables as usize + 1;
    if marks.len() < m {
        return Err(Refusal::TooSmall(Buffer::Marks));
    }
    if values < usize::from(h.variables) {
        return Err(Refusal::TooSmall(Buffer::Values));
    }
    if trail < ifs {
        return Err(Refusal::TooSmall(Buffer::Trail));
    }
    check(report, from, base, size, words, starts, &mut marks[..m])
}
