// Two reports on one routine, by their leads.
ghost use Rattle.std.specs.Prelude.{◌≡◌};
ghost use Rattle.report_witness.specs.Inner.LeadFits.{LeadFits};
ghost use Rattle.report_witness.specs.Pair.{compared};

use crate::Refusal;
use crate::leads::open;
use routine::Accepted;

// 11 and 12 of the first, then of the second, then whether they name the same access and the same side.
pub fn compare(first: &[u8], second: &[u8], accepted: Accepted) -> Result<bool, Refusal>
    requires { LeadFits accepted.header accepted.counts }
    ensures { result ≡ compared first.now second.now accepted.header accepted.counts }
{
    let one = open(first, accepted)?;
    let other = open(second, accepted)?;
    Ok(one.target == other.target)
}
