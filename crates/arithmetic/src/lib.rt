// Arithmetic on bits as netlists. A number's bits are a slice of literals, the lowest first.
#![tactic(auto)]

pub mod choices;
pub mod constants;
pub mod extensions;
pub mod input_words;
pub mod products;
pub mod sums;

use netlist::Net;

// The places of an array of bits: one more than the widest number has. Nothing is allocated, so that its length stands beside it where less is used.
pub const PLACES: usize = 33;

// What a circuit makes of numbers: the state, and the bits of a result.
#[derive(Clone, Copy)]
pub struct Bundle {
    pub net: Net,
    pub bits: [u32; PLACES],
}

// What a comparison makes: the state, and the literal that says whether it holds.
#[derive(Clone, Copy)]
pub struct Test {
    pub net: Net,
    pub lit: u32,
}
