// A report as far as its proof: its lead, read once, the run of the witness in it, and two leads beside each other.
#![tactic(auto)]

mod arrays;
pub mod leads;
pub mod pairs;
pub mod runs;

use lead::Target;

// The lead of a report: what it names, a decision for each if, and the witness's input words. A routine has at most 32 ifs, and words for at most 32
// variables and 64 reads; zeros stand after those that it has, since nothing is allocated.
#[derive(Clone, Copy)]
pub struct Lead {
    pub target: Target,
    pub decisions: [u8; 32],
    pub inputs: [u32; 96],
}

// Why a report is turned down before its proof is looked at.
#[derive(Clone, Copy)]
pub enum Refusal {
    Lead(lead::Refusal),
    // the report, of this length, is too long, or its lead is cut short
    Cut(usize),
    // the input word of this number is too great
    Input(usize),
    // the witness takes another arm at the if of this number
    Astray(u8),
    // the witness does not come to this access
    Missed(u8),
    // the index there is not on the side
    OffSide(u8),
}
