// The operations on numbers of bits.
ghost use Rattle.std.specs.Prelude.{◌≡◌, ◌≤◌, ◌<◌, length};
ghost use Rattle.netlist.specs.Inner.Emit.{Ready};
ghost use Rattle.arithmetic.specs.Bits.{lit_at, places, tabulate};
ghost use Rattle.arithmetic.specs.Inner.Results.{Makes};
ghost use Rattle.translation_command.specs.Operation.{conversion, computation};

use arithmetic::extensions::extended;
use arithmetic::products::emit_product;
use arithmetic::sums::{emit_difference, emit_sum, sum_bits};
use arithmetic::{Bundle, PLACES};
use division::{emit_division, quotient_bits, remainder_bits};
use netlist::Net;
use routine_command::{Conversion, Operation};

// A copy of the literals: 3 above a number that is copied, cut or extended by zeros, and its top bit above one that is extended by its sign.
pub fn convert(op: Conversion, a: &[u32]) -> [u32; PLACES]
    requires { (0 < length a.now) × (length a.now ≤ places) }
    ensures { result ≡ tabulate (conversion op (lit_at a.now) (length a.now)) places }
{
    match op {
        Conversion::Copy | Conversion::Cut | Conversion::ZeroExtend => extended(a, 3),
        Conversion::SignExtend => extended(a, a[a.len() - 1]),
    }
}

// An operation on two numbers of one width.
pub fn compute(
    words: &mut [u32],
    starts: &mut [u32],
    n: Net,
    op: Operation,
    a: &[u32],
    b: &[u32],
) -> Bundle
    requires ready { Ready n 4224 }
    requires b_len { length b.now ≡ length a.now }
    requires a_nonzero { (0 < length a.now) × (length a.now ≤ 32) }
    ensures { Makes words.old starts.old n (computation op n.next (lit_at a.now) (lit_at b.now) (length a.now)) words.new starts.new result }
{
    match op {
        Operation::Add => {
            let bits = sum_bits(n.next);
            let net = emit_sum(words, starts, n, a, b, 3);
            Bundle { net, bits }
        }
        Operation::Subtract => {
            let bits = sum_bits(n.next);
            let net = emit_difference(words, starts, n, a, b);
            Bundle { net, bits }
        }
        Operation::Multiply => emit_product(words, starts, n, a, b),
        Operation::Quotient => {
            let bits = quotient_bits(n.next, a.len());
            let net = emit_division(words, starts, n, a, b);
            Bundle { net, bits }
        }
        Operation::Remainder => {
            let bits = remainder_bits(n.next, a.len());
            let net = emit_division(words, starts, n, a, b);
            Bundle { net, bits }
        }
    }
}
