// The calls on whole reports: judging one, and whether two are alike.
#![tactic(auto)]

mod checks;
mod claim_proof;
mod lent_parts;

ghost use Rattle.std.specs.Prelude.{◌≡◌};
ghost use Rattle.report_judgement.specs.Demand.{Demand3};
ghost use Rattle.report.specs.Zeroed.{Judges};
ghost use Rattle.report.specs.Alike.{alike};

use report_judgement::{Finding, Refusal};
use report_witness::pairs::compare;
use slices::usable;

// Judges a report on a routine. If it is accepted, every run that goes the report's way and comes to the named access stops there, its index outside the array, on
// the side named. On every return the first 16,777,216 entries of each buffer are 0, and what lies beyond is unchanged.
pub fn judge(
    routine: &[u8],
    report: &[u8],
    words: &mut [u32],
    starts: &mut [u32],
    marks: &mut [u8],
    values: &mut [u32],
    trail: &mut [u8],
) -> Result<Finding, Refusal>
    ensures judges { Judges routine.now report.now words.old starts.old marks.old values.old trail.old words.new starts.new marks.new values.new trail.new result }
    ensures demand3 { Demand3 routine.now report.now result }
{
    let w = usable(words.len());
    let s = usable(starts.len());
    let m = usable(marks.len());
    let v = usable(values.len());
    let t = usable(trail.len());
    lent_parts::judge_parts(
        routine,
        report,
        &mut words[..w],
        &mut starts[..s],
        &mut marks[..m],
        &mut values[..v],
        &mut trail[..t],
    )
}

// Whether two reports name the same access and the same side.
pub fn alike(routine: &[u8], first: &[u8], second: &[u8]) -> Result<bool, report_witness::Refusal>
    ensures { result ≡ alike routine.now first.now second.now }
{
    match routine::check(routine) {
        Err(refusal) => Err(report_witness::Refusal::Lead(lead::Refusal::Routine(refusal))),
        Ok(accepted) => compare(first, second, accepted),
    }
}
