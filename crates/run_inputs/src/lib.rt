// Whether an input list is accepted: 9 and 10.
#![tactic(auto)]

ghost use Rattle.std.specs.Prelude.{◌≡◌, ◌^◌, ltb, ◌↔◌, IsTrue, Some};
ghost use Rattle.slices.specs.Bytes.{entry};
ghost use Rattle.routine_header.specs.Header.{width};
ghost use Rattle.routine_command.specs.Command.{opcode_of};
ghost use Rattle.routine_command.specs.declared.Opcode.{Opcode};
ghost use Rattle.routine_faults.specs.Inputs.{given};
ghost use Rattle.routine.specs.Routine.{text_of};
ghost use Rattle.routine.specs.Decode.{commands_in};
ghost use Rattle.routine.specs.Inner.Known.{IsRoutineWith};
ghost use Rattle.run_inputs.specs.Inputs.{variables_from, read_variables, first_great, words_fit, listed};

use routine_command::Opcode;
use routine_command::commands::{opcode_of, size_by_op};
use routine_faults::Counts;
use routine_faults::steps::fits_width;
use routine_faults::words::{given_of, input_count};
use routine_header::{Header, first_command, width_of};
use slices::{byte_at, entry_at};

// The word of this number is too great for its variable.
#[derive(Clone, Copy)]
pub struct TooGreat(pub usize);

// Why an input list is not accepted.
#[derive(Clone, Copy)]
pub enum Refusal {
    // not one word for each variable and each read
    Miscounted,
    // this word is too great for its variable
    TooGreat(usize),
}

// The word of number n fits variable v.
fn fits(bytes: &[u8], inputs: &[u32], n: usize, v: u8) -> bool
    ensures { result ≡ ltb (entry inputs.now n) (2 ^ width bytes.now v) }
{
    fits_width(entry_at(inputs, n), width_of(bytes, v))
}

// The first variable whose word is too great.
#[tactic(auto, using(crate::proofs::Lists::given_great, crate::proofs::Lists::given_next, crate::proofs::Lists::given_over))]
fn check_given(bytes: &[u8], inputs: &[u32], count: u8) -> Result<(), TooGreat>
    ensures { result ≡ first_great bytes.now inputs.now 0 (variables_from 0 count) }
{
    for v in 0..count {
        let n = usize::from(v);
        if !fits(bytes, inputs, n, v) {
            return Err(TooGreat(n));
        }
    }
    Ok(())
}

// Whether a command's own byte is that of a read.
fn is_read(op: u8) -> bool
    ensures { IsTrue result ↔ (opcode_of op ≡ Some Opcode.Read) }
{
    matches!(opcode_of(op), Some(Opcode::Read))
}

// The first read, in text order, whose word is too great. The bytes after the last read are not looked at. A command's size tells
// where the next one stands.
#[tactic(auto, using(crate::proofs::Scan::scan_room, crate::proofs::Scan::read_room, crate::proofs::Scan::scan_past, crate::proofs::Scan::scan_fits))]
fn check_reads(bytes: &[u8], inputs: &[u32], h: Header, k: Counts) -> Result<(), TooGreat>
    requires { IsRoutineWith bytes.now h k }
    ensures { result ≡ first_great bytes.now inputs.now (given h) (read_variables (text_of (commands_in bytes.now))) }
{
    let end = input_count(h, k);
    let mut at = first_command(h);
    let mut n = usize::from(given_of(h));
    while n < end {
        let op = byte_at(bytes, at);
        if is_read(op) {
            if !fits(bytes, inputs, n, byte_at(bytes, at + 1)) {
                return Err(TooGreat(n));
            }
            at += 4;
            n += 1;
        } else {
            at += size_by_op(op);
        }
    }
    Ok(())
}

// 10: no word is too great.
#[tactic(auto, using(crate::proofs::Lists::reads_decide, crate::proofs::Lists::given_decides), unfolding(crate::specs::Inputs::words_fit))]
pub fn check_words(bytes: &[u8], inputs: &[u32], h: Header, k: Counts) -> Result<(), TooGreat>
    requires { IsRoutineWith bytes.now h k }
    ensures { result ≡ words_fit bytes.now inputs.now h (commands_in bytes.now) }
{
    check_given(bytes, inputs, given_of(h))?;
    check_reads(bytes, inputs, h, k)
}

// 9 and 10: one word for each variable and each read, and none too great.
#[tactic(auto, using(crate::proofs::Counted::miscounted))]
pub fn check_inputs(bytes: &[u8], inputs: &[u32], h: Header, k: Counts) -> Result<(), Refusal>
    requires { IsRoutineWith bytes.now h k }
    ensures { result ≡ listed bytes.now inputs.now h (commands_in bytes.now) k }
{
    if inputs.len() != input_count(h, k) {
        return Err(Refusal::Miscounted);
    }
    check_words(bytes, inputs, h, k).map_err(|word| Refusal::TooGreat(word.0))
}
