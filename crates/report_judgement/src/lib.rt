// What is said of a report, by definition, and what acceptance says of every run. There is no code here: what is proved are laws of definitions, so
// that no change of the code that judges has them checked again.
#![tactic(auto)]

use bitvec::Whole;
use slices::Buffer;

// Why a report is turned down.
#[derive(Clone, Copy)]
pub enum Refusal {
    // 1 to 8, the lead or the witness
    Witness(report_witness::Refusal),
    TooSmall(Buffer),
    Proof(proof_check::Refusal),
}

// What an accepted report says: the access and the side that it names; the array that its witness reaches there, the size of that array, and the index;
// the steps and the hints of its proof. Access and side are bytes 0 and 1 of the report, as `Found` says, and so numbers.
#[derive(Clone, Copy)]
pub struct Finding {
    pub access: u8,
    pub side: u8,
    pub array: u8,
    pub size: u32,
    pub index: Whole,
    pub steps: usize,
    pub hints: usize,
}
