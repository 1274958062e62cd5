// The state of a run and following it, command by command.
#![tactic(auto)]

mod moves;
pub mod runs;
pub mod states;
mod ways;

use bitvec::Whole;
use routine_faults::Counts;

// Where an index lies outside its array: below 0, or at or above the size.
#[derive(Clone, Copy, PartialEq, Eq)]
pub enum Side {
    Below,
    Above,
}

// The access that stopped a run: its number, its index, and the side on which that lies outside.
#[derive(Clone, Copy)]
pub struct Stop {
    pub access: u32,
    pub index: Whole,
    pub side: Side,
}

// The state of a run: the variables' values, the arm taken at each if (0 first, 1 else, 2 not come to), and the access that stopped it, if one did.
// Nothing is allocated: a routine has at most 32 variables and 32 ifs.
#[derive(Clone, Copy)]
pub struct State {
    pub values: [u32; 32],
    pub trail: [u8; 32],
    pub stop: Option<Stop>,
}

// The variables of a command that is no if: d takes a value, a and b give theirs, and i holds the index. Variable 0 stands where a command has none; a
// write changes no variable, so that its d takes the value of a, which is the same one.
#[derive(Clone, Copy)]
pub struct Operands {
    pub d: u8,
    pub a: u8,
    pub b: u8,
    pub i: u8,
}

// How far a run is followed: to its end, or as far as the access of a number, before which so many ifs stand. An enum of its own, since a
// `None` would not tell that a run is followed to its end.
#[derive(Clone, Copy)]
pub enum Goal {
    End,
    Access { number: u8, before: u8 },
}

// Where an access lands: the number of the array, and the index in it.
#[derive(Clone, Copy)]
pub struct Landing {
    pub array: u8,
    pub index: Whole,
}

// What a run did as far as the goal.
#[derive(Clone, Copy)]
pub enum Course {
    // it took another arm than was decided, at the if of this number
    Astray(u8),
    // it came to no access of that number yet
    Passing,
    // it came to the access
    Arrived(Landing),
}

// What a command is to a run that is followed: the run goes on, an access stops it, or an access is the goal.
#[derive(Clone, Copy)]
pub enum Reached {
    Goes,
    Stops { index: Whole, side: Side },
    Arrives(Landing),
}

// A run that is followed, at the end of an arm or an if: the offset and the counts there, the state, and the course so far. Where the course is settled
// only that tells something; where the run stopped, only the state and the course.
#[derive(Clone, Copy)]
pub struct Way {
    pub next: usize,
    pub counts: Counts,
    pub state: State,
    pub course: Course,
}
