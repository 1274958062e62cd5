// The walk of a translation over the bytes of a routine: the bits that the variables begin with, a command, an arm, an if.
#![tactic(auto)]

pub mod beginning;
mod steps;
pub mod walks;

use netlist::Net;
use routine_faults::Counts;
use translation_state::Reach;

// Where a translation is: the offset and the counts there, what is emitted, arrival and the claim. Where the claim was made before, offset and
// counts tell nothing. The counts, which are bytes, stand last: in front of the numbers they would be copied together with these, which is slow.
#[derive(Clone, Copy)]
pub struct Walk {
    pub next: usize,
    pub net: Net,
    pub reach: Reach,
    pub counts: Counts,
}
