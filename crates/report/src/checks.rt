// The checks of a report in their order: the routine, the lead, the witness, then the proof.
ghost use Rattle.std.specs.Prelude.{◌≡◌, ◌≤◌, Ok, length};
ghost use Rattle.routine.specs.Decode.{commands_in};
ghost use Rattle.routine.specs.Inner.Known.{IsRoutineWith};
ghost use Rattle.report_witness.specs.Lead.{proof_at, opened};
ghost use Rattle.report.specs.Inner.Parts.{room_of};
ghost use Rattle.report_judgement.specs.Judging.{finding, by_opened, judgement};

use crate::claim_proof::prove;
use lead::Target;
use proof_check::Tally;
use report_judgement::{Finding, Refusal};
use report_witness::Lead;
use report_witness::leads::{open, proof_at};
use report_witness::runs::run_witness;
use routine::Accepted;
use routine_header::{Header, size_of_array};
use run_state::Landing;

// What was found, by where the witness lands and what the proof comes to.
fn finding(routine: &[u8], h: Header, t: Target, landing: Landing, tally: Tally) -> Finding
    ensures { result ≡ finding routine.now h t landing tally }
{
    Finding {
        access: t.access,
        side: t.side,
        array: landing.array,
        size: size_of_array(routine, h, landing.array),
        index: landing.index,
        steps: tally.steps,
        hints: tally.hints,
    }
}

// The witness of a lead that is whole, then 16 and the proof.
fn decide_lead(
    routine: &[u8],
    report: &[u8],
    accepted: Accepted,
    lead: Lead,
    words: &mut [u32],
    starts: &mut [u32],
    marks: &mut [u8],
    values: usize,
    trail: usize,
) -> Result<Finding, Refusal>
    requires { IsRoutineWith routine.now accepted.header accepted.counts × (proof_at accepted.header accepted.counts ≤ length report.now) × (length report.now ≤ 16777216) × (length words.old ≤ 16777216) × (length starts.old ≤ 16777216) }
    ensures { result ≡ by_opened routine.now report.now (room_of words.old starts.old marks.old values trail) accepted.header (commands_in routine.now) accepted.counts (Ok lead) }
{
    let landing = run_witness(routine, lead, accepted).map_err(Refusal::Witness)?;
    let from = proof_at(accepted);
    let tally = prove(
        routine, report, from, 0, accepted, lead, words, starts, marks, values, trail,
    )?;
    Ok(finding(routine, accepted.header, lead.target, landing, tally))
}

// 11 and 12, then the rest, of a report on a routine with these counts.
fn decide_claim(
    routine: &[u8],
    report: &[u8],
    accepted: Accepted,
    words: &mut [u32],
    starts: &mut [u32],
    marks: &mut [u8],
    values: usize,
    trail: usize,
) -> Result<Finding, Refusal>
    requires { IsRoutineWith routine.now accepted.header accepted.counts × (length words.old ≤ 16777216) × (length starts.old ≤ 16777216) }
    ensures { result ≡ by_opened routine.now report.now (room_of words.old starts.old marks.old values trail) accepted.header (commands_in routine.now) accepted.counts (opened report.now accepted.header accepted.counts) }
{
    let lead = open(report, accepted).map_err(Refusal::Witness)?;
    decide_lead(
        routine, report, accepted, lead, words, starts, marks, values, trail,
    )
}

// The whole judgement; the buffers are left as the proof left them.
pub fn decide(
    routine: &[u8],
    report: &[u8],
    words: &mut [u32],
    starts: &mut [u32],
    marks: &mut [u8],
    values: usize,
    trail: usize,
) -> Result<Finding, Refusal>
    requires { (length words.old ≤ 16777216) × (length starts.old ≤ 16777216) }
    ensures { result ≡ judgement routine.now report.now (room_of words.old starts.old marks.old values trail) }
{
    match routine::check(routine) {
        Err(refusal) => Err(Refusal::Witness(report_witness::Refusal::Lead(lead::Refusal::Routine(
            refusal,
        )))),
        Ok(accepted) => decide_claim(
            routine, report, accepted, words, starts, marks, values, trail,
        ),
    }
}
