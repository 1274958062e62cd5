// What a command is where it stands: refusals 3 to 7, in their order.
ghost use Rattle.std.specs.Prelude.{◌≡◌, ◌^◌, ◌<◌, ltb, false};
ghost use Rattle.routine_faults.specs.Step.{converts, in_range, widths_fit, no_counts, accesses, is_access, too_many, counts_after, simple_step, counts_after_if, if_step};
ghost use Rattle.routine_faults.specs.Inner.Fault.{fault_of};

use crate::{Counts, Fault};
use routine_command::commands::touched;
use routine_command::{Condition, Conversion, Simple, Touch};
use routine_header::{Header, width_of};

// c is below 2 to the width w.
pub fn fits_width(c: u32, w: u8) -> bool
    ensures { result ≡ ltb c (2 ^ w) }
{
    32 <= w || c < 1u32 << w
}

fn converts_widths(op: Conversion, d: u8, s: u8) -> bool
    ensures { result ≡ converts op d s }
{
    match op {
        Conversion::Copy => d == s,
        Conversion::Cut => d < s,
        Conversion::ZeroExtend | Conversion::SignExtend => s < d,
    }
}

// The operands and the constant of a command are in range.
#[tactic(auto, unfolding(crate::specs::Step::in_range))]
fn in_range(bytes: &[u8], h: Header, c: Simple) -> bool
    ensures { result ≡ in_range bytes.now h c }
{
    let v = h.variables;
    let n = h.arrays;
    match c {
        Simple::Set { d, c } => d < v && fits_width(c, width_of(bytes, d)),
        Simple::Convert { op: _, d, s } => d < v && s < v,
        Simple::Compute { op: _, d, s, t } => d < v && s < v && t < v,
        Simple::Read { d, array, i } => d < v && array < n && i < v,
        Simple::Write { array, i, s } => array < n && i < v && s < v,
    }
}

// The widths are as the command asks.
#[tactic(auto, unfolding(crate::specs::Step::widths_fit))]
fn widths_fit(bytes: &[u8], c: Simple) -> bool
    ensures { result ≡ widths_fit bytes.now c }
{
    match c {
        Simple::Set { .. } => true,
        Simple::Convert { op, d, s } => {
            converts_widths(op, width_of(bytes, d), width_of(bytes, s))
        }
        Simple::Compute { op: _, d, s, t } => {
            let w = width_of(bytes, d);
            w == width_of(bytes, s) && w == width_of(bytes, t)
        }
        Simple::Read { .. } => true,
        Simple::Write { .. } => true,
    }
}

// Before the first command nothing was met.
pub fn no_counts() -> Counts
    ensures { result ≡ no_counts }
{
    Counts {
        ifs: 0,
        reads: 0,
        writes: 0,
    }
}

// How many accesses were met.
pub fn accesses_of(k: Counts) -> u32
    ensures { result ≡ accesses k }
{
    u32::from(k.reads) + u32::from(k.writes)
}

fn is_access(c: Simple) -> bool
    ensures { result ≡ is_access c }
{
    matches!(touched(c), Touch::Reads { .. } | Touch::Writes { .. })
}

#[tactic(auto, unfolding(crate::specs::Step::too_many))]
fn too_many(c: Simple, k: Counts) -> bool
    ensures { result ≡ too_many c k }
{
    is_access(c) && 64 <= accesses_of(k)
}

// The counts after a command that is not the 65th access.
#[tactic(auto, unfolding(crate::specs::Step::too_many))]
pub fn counts_after(c: Simple, k: Counts) -> Counts
    requires { too_many c k ≡ false }
    ensures { result ≡ counts_after c k }
{
    match touched(c) {
        Touch::Nothing => k,
        Touch::Reads { .. } => Counts {
            reads: k.reads + 1,
            ..k
        },
        Touch::Writes { .. } => Counts {
            writes: k.writes + 1,
            ..k
        },
    }
}

// What is wrong with a command that is no part of an if, after the counts k.
#[tactic(auto, unfolding(crate::specs::Step::simple_step))]
pub fn simple_fault(bytes: &[u8], h: Header, c: Simple, k: Counts) -> Result<(), Fault>
    ensures { result ≡ fault_of (simple_step bytes.now h c k) }
{
    if !in_range(bytes, h, c) {
        return Err(Fault::Operand);
    }
    if !widths_fit(bytes, c) {
        return Err(Fault::Widths);
    }
    if too_many(c, k) {
        return Err(Fault::TooMany);
    }
    Ok(())
}

// The counts after an if that is not the 33rd.
pub fn counts_after_if(k: Counts) -> Counts
    requires { k.ifs < 32 }
    ensures { result ≡ counts_after_if k }
{
    Counts {
        ifs: k.ifs + 1,
        ..k
    }
}

// What is wrong with an if inside `depth` others, after the counts k.
#[tactic(auto, unfolding(crate::specs::Step::if_step))]
pub fn if_fault(bytes: &[u8], h: Header, depth: u8, c: Condition, k: Counts) -> Result<(), Fault>
    ensures { result ≡ fault_of (if_step bytes.now h depth c k) }
{
    let v = h.variables;
    if !(c.relation < 10 && c.s < v && c.t < v) {
        return Err(Fault::Operand);
    }
    if width_of(bytes, c.s) != width_of(bytes, c.t) {
        return Err(Fault::Widths);
    }
    if 8 <= depth {
        return Err(Fault::Misplaced);
    }
    if 32 <= k.ifs {
        return Err(Fault::TooMany);
    }
    Ok(())
}
