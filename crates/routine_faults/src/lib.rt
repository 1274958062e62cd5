// A command where it stands: what is refused of it, and the counts after it.
#![tactic(auto)]

pub mod steps;
pub mod words;

// How many ifs, reads and writes were met. Reads and writes are the accesses.
#[derive(Clone, Copy)]
pub struct Counts {
    pub ifs: u8,
    pub reads: u8,
    pub writes: u8,
}

// What is wrong with a command.
#[derive(Clone, Copy)]
pub enum Fault {
    // unknown or cut short, or no command there
    Unknown,
    // an operand or the constant is out of range
    Operand,
    // the widths are not as the command asks
    Widths,
    // else, end of if or end out of place, or an if inside eight others
    Misplaced,
    // the 33rd if, the 65th access
    TooMany,
}
