// Judging over the parts of the buffers that are used.
ghost use Rattle.std.specs.Prelude.{◌≤◌, length};
ghost use Rattle.report.specs.Inner.Parts.{JudgesParts};

use crate::checks::decide;
use report_judgement::{Finding, Refusal};

// Decides, then zeroes what was lent, whatever the answer.
pub fn judge_parts(
    routine: &[u8],
    report: &[u8],
    words: &mut [u32],
    starts: &mut [u32],
    marks: &mut [u8],
    values: &mut [u32],
    trail: &mut [u8],
) -> Result<Finding, Refusal>
    requires { (length words.old ≤ 16777216) × (length starts.old ≤ 16777216) }
    ensures { JudgesParts routine.now report.now words.old starts.old marks.old values.old trail.old words.new starts.new marks.new values.new trail.new result }
{
    let answer = decide(
        routine,
        report,
        words,
        starts,
        marks,
        values.len(),
        trail.len(),
    );
    words.fill(0);
    starts.fill(0);
    marks.fill(0);
    values.fill(0);
    trail.fill(0);
    answer
}
