// The lead of a report: read once, then 11 and 12.
ghost use Rattle.std.specs.Prelude.{◌≡◌, ◌≤◌, length};
ghost use Rattle.report_witness.specs.Lead.{proof_at, lead_in, opened};
ghost use Rattle.report_witness.specs.Inner.LeadFits.{LeadFits};

use crate::arrays::{bytes_from, words_from};
use crate::{Lead, Refusal};
use lead::{Target, admit_lead};
use routine::Accepted;
use routine_faults::words::input_count;

// Where the proof begins.
pub fn proof_at(accepted: Accepted) -> usize
    ensures { result ≡ proof_at accepted.header accepted.counts }
{
    2 + usize::from(accepted.counts.ifs) + 4 * input_count(accepted.header, accepted.counts)
}

// The lead of a report that is long enough for it.
fn read_lead(report: &[u8], accepted: Accepted) -> Lead
    requires { LeadFits accepted.header accepted.counts × (proof_at accepted.header accepted.counts ≤ length report.now) }
    ensures { result ≡ lead_in report.now accepted.header accepted.counts }
{
    let ifs = accepted.counts.ifs as usize;
    let target = Target {
        access: report[0],
        side: report[1],
    };
    let decisions = bytes_from(report, 2, ifs);
    let n = input_count(accepted.header, accepted.counts);
    let inputs = words_from(report, 2 + ifs, n);
    Lead {
        target,
        decisions,
        inputs,
    }
}

// Reads the lead of a report on a routine with these counts, if 11 and 12 let it through.
pub fn open(report: &[u8], accepted: Accepted) -> Result<Lead, Refusal>
    requires { LeadFits accepted.header accepted.counts }
    ensures { result ≡ opened report.now accepted.header accepted.counts }
{
    if 16777216 < report.len() {
        return Err(Refusal::Cut(report.len()));
    }
    if report.len() < proof_at(accepted) {
        return Err(Refusal::Cut(report.len()));
    }
    let lead = read_lead(report, accepted);
    let ifs = accepted.counts.ifs as usize;
    admit_lead(accepted.counts, lead.target, &lead.decisions[..ifs]).map_err(Refusal::Lead)?;
    Ok(lead)
}
