// What a command that is no if makes of the symbolic state.
#![tactic(auto)]

pub mod commands;
mod operations;

use netlist::Net;
use translation_state::Reach;

// What a command is encoded as: what is emitted, arrival and the claim.
#[derive(Clone, Copy)]
pub struct Encoded {
    pub net: Net,
    pub reach: Reach,
}
