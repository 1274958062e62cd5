// The netlist of a claim, by definition, and what it says of every run. There is no code here: what is proved are laws of definitions, so that no
// change of the code that translates has them checked again.
#![tactic(auto)]

// What a translation takes.
#[derive(Clone, Copy)]
pub struct Size {
    pub clauses: u32,
    pub words: u32,
    pub variables: u32,
}
