// What a command that is no if does to the values. The walk stores it in its own state: a state that is handed to a method and back is copied twice, for
// every command.
ghost use Rattle.std.specs.Prelude.{◌≡◌, ◌≤◌};
ghost use Rattle.routine_header.specs.Header.{width};
ghost use Rattle.routine_faults.specs.Inner.Sound.{Sound, Fine};
ghost use Rattle.run_state.specs.State.{converted, computed};
ghost use Rattle.run_state.specs.Inner.Moves.{operands_of, value_after};

use crate::Operands;
use bitvec::{signed, word};
use routine_command::{Conversion, Operation, Simple};
use routine_faults::Counts;
use routine_faults::words::input_number;
use routine_header::{Header, width_of};
use slices::entry_at;

// The word a of w bits as one of v bits: cut, extended by zeros or by its sign, or copied.
#[tactic(auto, unfolding(crate::specs::State::converted))]
fn converted_by(op: Conversion, v: u8, w: u8, a: u32) -> u32
    requires { (v ≤ 32) × (1 ≤ w) × (w ≤ 32) }
    ensures { result ≡ converted op v w a }
{
    match op {
        Conversion::Copy => a,
        Conversion::Cut => word::cut_to(v, a),
        Conversion::ZeroExtend => word::zero_extended(a),
        Conversion::SignExtend => signed::sign_extended(v, w, a),
    }
}

// The value of variable s as it goes into variable d.
fn converted_in(bytes: &[u8], op: Conversion, d: u8, s: u8, a: u32) -> u32
    requires { (width bytes.now d ≤ 32) × (1 ≤ width bytes.now s) × (width bytes.now s ≤ 32) }
    ensures { result ≡ converted op (width bytes.now d) (width bytes.now s) a }
{
    converted_by(op, width_of(bytes, d), width_of(bytes, s), a)
}

// The sum, the difference, the product, the quotient or the remainder.
#[tactic(auto, unfolding(crate::specs::State::computed))]
fn computed_by(op: Operation, w: u8, a: u32, b: u32) -> u32
    requires { w ≤ 32 }
    ensures { result ≡ computed op w a b }
{
    match op {
        Operation::Add => word::add(w, a, b),
        Operation::Subtract => word::subtract(w, a, b),
        Operation::Multiply => word::multiply(w, a, b),
        Operation::Quotient => word::quotient(w, a, b),
        Operation::Remainder => word::remainder(w, a, b),
    }
}

// The variables of a command.
pub fn operands_of(c: Simple) -> Operands
    ensures { result ≡ operands_of c }
{
    match c {
        Simple::Set { d, .. } => Operands {
            d,
            a: 0,
            b: 0,
            i: 0,
        },
        Simple::Convert { op: _, d, s } => Operands {
            d,
            a: s,
            b: 0,
            i: 0,
        },
        Simple::Compute { op: _, d, s, t } => Operands {
            d,
            a: s,
            b: t,
            i: 0,
        },
        Simple::Read { d, array: _, i } => Operands { d, a: 0, b: 0, i },
        Simple::Write { array: _, i, s } => Operands {
            d: s,
            a: s,
            b: 0,
            i,
        },
    }
}

// The value that variable d takes, those of a and b being given: a read gives the input word of its own number.
pub fn value_after(
    bytes: &[u8],
    h: Header,
    inputs: &[u32],
    c: Simple,
    k: Counts,
    a: u32,
    b: u32,
) -> u32
    requires { Sound bytes.now h c × Fine bytes.now h }
    ensures { result ≡ value_after bytes.now inputs.now h c k a b }
{
    match c {
        Simple::Set { d: _, c } => c,
        Simple::Convert { op, d, s } => converted_in(bytes, op, d, s, a),
        Simple::Compute { op, d, .. } => computed_by(op, width_of(bytes, d), a, b),
        Simple::Read { .. } => entry_at(inputs, input_number(h, k)),
        Simple::Write { .. } => a,
    }
}
