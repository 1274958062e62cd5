// The symbolic state of a translation: the literals of the variables' bits, arrival and the claim. The literals are lent: a group of places for each
// variable, the lowest bit first.
#![tactic(auto)]

pub mod literals;

// The places of one variable.
pub const VARIABLE_PLACES: usize = 32;

// The most places that there can be: those of 32 variables. Nothing is allocated, so that an else has its copy in an array.
pub const MOST_PLACES: usize = 1024;

// As many as few variables have: those of 8. Where these suffice, less is set up at each if.
pub const FEW_PLACES: usize = 256;

// The claim: at the named access the literal of arrival and that of the side.
#[derive(Clone, Copy)]
pub struct Claim {
    pub arrival: u32,
    pub side: u32,
}

// What a translation carries beside the literals: arrival, and the claim once it was made.
#[derive(Clone, Copy)]
pub struct Reach {
    pub arrival: u32,
    pub claim: Option<Claim>,
}
