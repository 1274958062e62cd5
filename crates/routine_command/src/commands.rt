// The command at an offset, and its size in bytes.
ghost use Rattle.std.specs.Prelude.{◌≡◌, ◌+◌, ◌<◌, ◌≤◌, ◌↔◌, Some, length};
ghost use Rattle.slices.specs.Bytes.{entry, word};
ghost use Rattle.routine_command.specs.Command.{opcode_of, opcode_size, command_with, command_at, size_by_op, simple_size, touches, touches_of};

use crate::{Command, Condition, Conversion, Mark, Opcode, Operation, Simple, Touch};
use slices::whole_word_at;

pub fn simple_size<C: Copy, O: Copy>(c: Simple<C, O>) -> usize
    ensures { result ≡ simple_size c }
{
    match c {
        Simple::Set { .. } => 6,
        Simple::Convert { .. } => 3,
        Simple::Compute { .. } => 4,
        Simple::Read { .. } => 4,
        Simple::Write { .. } => 4,
    }
}

pub fn touched<C: Copy, O: Copy>(c: Simple<C, O>) -> Touch
    ensures { result ≡ touches c }
{
    match c {
        Simple::Set { .. } => Touch::Nothing,
        Simple::Convert { .. } => Touch::Nothing,
        Simple::Compute { .. } => Touch::Nothing,
        Simple::Read { d, array, i } => Touch::Reads { d, array, i },
        Simple::Write { array, i, s: _ } => Touch::Writes { array, i },
    }
}

#[tactic(auto, unfolding(crate::specs::Command::touches_of))]
pub fn touch_of<M: Copy, C: Copy, O: Copy>(command: Command<M, C, O>) -> Touch
    ensures { result ≡ touches_of command }
{
    match command {
        Command::Missing => Touch::Nothing,
        Command::Close(_) => Touch::Nothing,
        Command::If(_) => Touch::Nothing,
        Command::Simple(c) => touched(c),
    }
}

// The command that a byte stands for; none where the byte is unknown.
#[tactic(auto, unfolding(crate::specs::Command::opcode_of))]
pub fn opcode_of(op: u8) -> Option<Opcode>
    ensures { result ≡ opcode_of op }
{
    let opcode = match op {
        0x00 => Opcode::Close(Mark::End),
        0x01 => Opcode::Set,
        0x02 => Opcode::Convert(Conversion::Copy),
        0x03 => Opcode::Compute(Operation::Add),
        0x04 => Opcode::Compute(Operation::Subtract),
        0x05 => Opcode::Compute(Operation::Multiply),
        0x06 => Opcode::Convert(Conversion::Cut),
        0x07 => Opcode::Convert(Conversion::ZeroExtend),
        0x08 => Opcode::Convert(Conversion::SignExtend),
        0x09 => Opcode::Read,
        0x0A => Opcode::Write,
        0x0B => Opcode::If,
        0x0C => Opcode::Close(Mark::Else),
        0x0D => Opcode::Close(Mark::EndIf),
        0x0E => Opcode::Compute(Operation::Quotient),
        0x0F => Opcode::Compute(Operation::Remainder),
        _ => return None,
    };
    Some(opcode)
}

// How many bytes a command takes, by its own byte alone.
#[tactic(auto, unfolding(crate::specs::Command::command_by, crate::specs::Command::opcode_of))]
pub fn size_by_op(op: u8) -> usize
    ensures { result ≡ size_by_op op }
{
    match op {
        0x01 => 6,
        0x02 | 0x06..=0x08 => 3,
        0x03..=0x05 | 0x09..=0x0B | 0x0E..=0x0F => 4,
        _ => 1,
    }
}

// The operands that follow an opcode, all of them being there.
fn with_operands(bytes: &[u8], at: usize, opcode: Opcode) -> Command
    requires { at + opcode_size opcode ≤ length bytes.now }
    ensures { result ≡ command_with opcode (entry bytes.now (at + 1)) (entry bytes.now (at + 2)) (entry bytes.now (at + 3)) (word bytes.now (at + 2)) }
{
    match opcode {
        Opcode::Close(mark) => Command::Close(mark),
        Opcode::Set => Command::Simple(Simple::Set {
            d: bytes[at + 1],
            c: whole_word_at(bytes, at + 2),
        }),
        Opcode::Convert(op) => Command::Simple(Simple::Convert {
            op,
            d: bytes[at + 1],
            s: bytes[at + 2],
        }),
        Opcode::Compute(op) => Command::Simple(Simple::Compute {
            op,
            d: bytes[at + 1],
            s: bytes[at + 2],
            t: bytes[at + 3],
        }),
        Opcode::Read => Command::Simple(Simple::Read {
            d: bytes[at + 1],
            array: bytes[at + 2],
            i: bytes[at + 3],
        }),
        Opcode::Write => Command::Simple(Simple::Write {
            array: bytes[at + 1],
            i: bytes[at + 2],
            s: bytes[at + 3],
        }),
        Opcode::If => Command::If(Condition {
            relation: bytes[at + 1],
            s: bytes[at + 2],
            t: bytes[at + 3],
        }),
    }
}

// The conversion that a byte stands for, if it does.
fn conversion_of(op: u8) -> Option<Conversion>
    ensures { (kind : Conversion) → (result ≡ Some kind) ↔ (opcode_of op ≡ Some (Opcode.Convert kind)) }
{
    match op {
        0x02 => Some(Conversion::Copy),
        0x06 => Some(Conversion::Cut),
        0x07 => Some(Conversion::ZeroExtend),
        0x08 => Some(Conversion::SignExtend),
        _ => None,
    }
}

// The conversion whose byte stands at `at`, if it is whole.
fn conversion_at(bytes: &[u8], at: usize, kind: Conversion) -> Command
    requires there { at < length bytes.now }
    requires is { opcode_of (entry bytes.now at) ≡ Some (Opcode.Convert kind) }
    ensures { result ≡ command_at bytes.now at }
{
    if bytes.len() - at < 3 {
        return Command::Missing;
    }
    with_operands(bytes, at, Opcode::Convert(kind))
}

// The whole command at `at`. The operands are read once the size has told that they are there. A conversion is asked for first: a compiler tests its four bytes at
// once, and shifts the kind out of a constant. The size of another command comes from the byte and not from the opcode: so nothing stands between the match that finds
// the opcode and the one on it, and one table of jumps is made of both. It is asked after what is left of the bytes, so that something stands between the first match
// and its own: else these two become one, by a second table of jumps. All of it is put into each walk, where its match and the walk's become one.
#[inline(always)]
pub fn command_at(bytes: &[u8], at: usize) -> Command
    ensures { result ≡ command_at bytes.now at }
{
    if bytes.len() <= at {
        return Command::Missing;
    }
    let op = bytes[at];
    if let Some(kind) = conversion_of(op) {
        return conversion_at(bytes, at, kind);
    }
    if bytes.len() - at < size_by_op(op) {
        return Command::Missing;
    }
    match opcode_of(op) {
        None => Command::Missing,
        Some(opcode) => with_operands(bytes, at, opcode),
    }
}
