// The routine: its header and commands, read from bytes, and the check that refuses what is no routine.
#![tactic(auto)]

pub mod seeking;
pub mod walks;

ghost use Rattle.std.specs.Prelude.{◌≡◌};
ghost use Rattle.routine.specs.Decode.{checked};

use routine_faults::{Counts, Fault};
use routine_header::Header;

// Why bytes are no routine.
#[derive(Clone, Copy)]
pub enum Refusal {
    // empty or over 4,096 bytes
    Length,
    // the header byte, or the size, at this offset is wrong or missing
    Header(usize),
    // the command at this offset has this fault
    Command(Fault, usize),
    // bytes follow the end
    Trailing(usize),
}

// What a routine is accepted with.
#[derive(Clone, Copy)]
pub struct Accepted {
    pub header: Header,
    pub counts: Counts,
}

// Where an arm or an if ends, and the counts there.
#[derive(Clone, Copy)]
pub struct Passed {
    pub next: usize,
    pub counts: Counts,
}

// The access of a number: the counts before it, its array, and the variable that holds its index.
#[derive(Clone, Copy)]
pub struct Access {
    pub counts: Counts,
    pub array: u8,
    pub i: u8,
}

// Checks a routine: the whole of what is refused with numbers 1 to 8.
#[tactic(auto, unfolding(crate::specs::Decode::checked, crate::specs::Decode::decode, crate::specs::Inner::Known::checked_commands))]
pub fn check(routine: &[u8]) -> Result<Accepted, Refusal>
    ensures { result ≡ checked routine.now }
{
    if routine.len() < 1 {
        return Err(Refusal::Length);
    }
    if 4096 < routine.len() {
        return Err(Refusal::Length);
    }
    let header = routine_header::read_header(routine).map_err(|place| Refusal::Header(place))?;
    walks::check_commands(routine, header)
}
