// The commands of a routine: the command at an offset.
#![tactic(auto)]

pub mod commands;

// What copies a value from a width to another: equal, narrower or wider.
#[derive(Clone, Copy)]
pub enum Conversion {
    Copy,
    Cut,
    ZeroExtend,
    SignExtend,
}

// What is computed of two values.
#[derive(Clone, Copy)]
pub enum Operation {
    Add,
    Subtract,
    Multiply,
    Quotient,
    Remainder,
}

// What closes an arm: the end of the routine, an else, or the end of an if.
#[derive(Clone, Copy, PartialEq, Eq)]
pub enum Mark {
    End,
    Else,
    EndIf,
}

// What a command's own byte tells: which command it is, without its operands.
#[derive(Clone, Copy)]
pub enum Opcode {
    Close(Mark),
    Set,
    Convert(Conversion),
    Compute(Operation),
    Read,
    Write,
    If,
}

// The condition of an if. Its relation is the byte that stands there: one that is none is refused where the command stands, and not while it is read.
#[derive(Clone, Copy)]
pub struct Condition {
    pub relation: u8,
    pub s: u8,
    pub t: u8,
}

// A command that is no part of an if: its operands as they stand in the bytes. A routine's has a conversion or an operation where C and O stand. Its size, and what it
// does with an array, do not depend on them, and are told with any type there, such as the byte's.
#[derive(Clone, Copy)]
pub enum Simple<C = Conversion, O = Operation> {
    Set { d: u8, c: u32 },
    Convert { op: C, d: u8, s: u8 },
    Compute { op: O, d: u8, s: u8, t: u8 },
    Read { d: u8, array: u8, i: u8 },
    Write { array: u8, i: u8, s: u8 },
}

// What a command does with an array: nothing, or it is an access, by the index in variable i. A read gives its value to variable d.
#[derive(Clone, Copy)]
pub enum Touch {
    Nothing,
    Reads { d: u8, array: u8, i: u8 },
    Writes { array: u8, i: u8 },
}

// What stands at an offset, with a mark where M stands in the same way.
#[derive(Clone, Copy)]
pub enum Command<M = Mark, C = Conversion, O = Operation> {
    // unknown or cut short, or no command there
    Missing,
    Close(M),
    If(Condition),
    Simple(Simple<C, O>),
}
