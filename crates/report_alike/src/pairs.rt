// Two reports on one routine, by their leads.
ghost use Rattle.std.specs.Prelude.{◌≡◌};
ghost use Rattle.routine.specs.Decode.{commands_in};
ghost use Rattle.routine.specs.Inner.Known.{IsRoutineWith};
ghost use Rattle.report_alike.specs.Alike.{same_decisions, alike_leads, compared};

use report_witness::leads::open;
use report_witness::{Lead, Refusal};
use routine::Accepted;
use routine::seeking::ifs_before;
use slices::byte_at;

// Whether the decisions are equal at the first so many ifs.
fn same_decisions(ds: &[u8], es: &[u8], before: u8) -> bool
    ensures { result ≡ same_decisions ds.now es.now before }
{
    for number in 0..before {
        let i = number as usize;
        if byte_at(ds, i) != byte_at(es, i) {
            return false;
        }
    }
    true
}

// Whether two leads are alike on a routine with these counts. Where they name different accesses or sides there is no need to look for the ifs.
fn alike_leads(routine: &[u8], accepted: Accepted, l: Lead, m: Lead) -> bool
    requires { IsRoutineWith routine.now accepted.header accepted.counts }
    ensures { result ≡ alike_leads (commands_in routine.now) accepted.counts l m }
{
    let t = l.target;
    if t != m.target {
        return false;
    }
    let before = ifs_before(routine, accepted.header, t.access);
    let ifs = accepted.counts.ifs as usize;
    same_decisions(&l.decisions[..ifs], &m.decisions[..ifs], before)
}

// 11 and 12 of the first, then of the second, then whether their leads are alike. `report_witness` has the one that `pellet_alike` promises.
pub fn compare(
    routine: &[u8],
    first: &[u8],
    second: &[u8],
    accepted: Accepted,
) -> Result<bool, Refusal>
    requires { IsRoutineWith routine.now accepted.header accepted.counts }
    ensures { result ≡ compared first.now second.now accepted.header (commands_in routine.now) accepted.counts }
{
    let one = open(first, accepted)?;
    let other = open(second, accepted)?;
    Ok(alike_leads(routine, accepted, one, other))
}
