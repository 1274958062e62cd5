// Comparisons of two numbers of one width.
ghost use Rattle.std.specs.Prelude.{◌≡◌, ◌*◌, ◌+◌, ◌-◌, ◌<◌, ◌^◌, ◌≤◌, length};
ghost use Rattle.arithmetic.specs.Bits.{lit_at, places};
ghost use Rattle.arithmetic.specs.Inner.Results.{Decides};
ghost use Rattle.cnf.specs.Inner.Append.{Lent, Written};
ghost use Rattle.comparison.specs.Compare.{at_least_signed, below, below_signed, equality, same, same_number};
ghost use Rattle.netlist.specs.Inner.Emit.{Ready};
ghost use Rattle.netlist.specs.Literal.{opp};
ghost use Rattle.netlist.specs.Node.{netlist_clauses};

use crate::turned;
use arithmetic::Test;
use arithmetic::sums::{emit_difference, emit_signed_difference};
use cnf::fits;
use netlist::gates::{and_gate, xor_gate};
use netlist::{Net, counted, opposite};

// Whether the difference that was just emitted has no last carry, which is its last variable.
fn no_carry(net: Net) -> Test
    requires { (0 < net.next) × (net.next ≤ 2 ^ 26) }
    ensures { (result.net ≡ net) × (result.lit ≡ opp (2 * (net.next - 1))) }
{
    let carry = 2 * (net.next - 1);
    let lit = opposite(carry);
    Test { net, lit }
}

// Whether the first number is below the second, unsigned: the opposite of the last carry.
pub fn less(words: &mut [u32], starts: &mut [u32], n: Net, a: &[u32], b: &[u32]) -> Test
    requires ready { Ready n (3 * length a.now) }
    requires b_len { length b.now ≡ length a.now }
    requires a_nonzero { (0 < length a.now) × (length a.now ≤ places) }
    ensures { Decides words.old starts.old n (below n.next (lit_at a.now) (lit_at b.now) (length a.now)) words.new starts.new result }
{
    no_carry(emit_difference(words, starts, n, a, b))
}

// Whether the first number is below the second, signed: the opposite of both top bits first.
pub fn less_signed(words: &mut [u32], starts: &mut [u32], n: Net, a: &[u32], b: &[u32]) -> Test
    requires ready { Ready n (3 * length a.now) }
    requires b_len { length b.now ≡ length a.now }
    requires a_nonzero { (0 < length a.now) × (length a.now ≤ places) }
    ensures { Decides words.old starts.old n (below_signed n.next (lit_at a.now) (lit_at b.now) (length a.now)) words.new starts.new result }
{
    no_carry(emit_signed_difference(words, starts, n, a, b))
}

// Whether the first number is not below the second, signed.
pub fn at_least_signed(words: &mut [u32], starts: &mut [u32], n: Net, a: &[u32], b: &[u32]) -> Test
    requires ready { Ready n (3 * length a.now) }
    requires b_len { length b.now ≡ length a.now }
    requires a_nonzero { (0 < length a.now) × (length a.now ≤ places) }
    ensures { Decides words.old starts.old n (at_least_signed n.next (lit_at a.now) (lit_at b.now) (length a.now)) words.new starts.new result }
{
    turned(less_signed(words, starts, n, a, b))
}

// Writes one place of an equality, for which there is room: the difference, and equal so far.
fn write_same(words: &mut [u32], starts: &mut [u32], i: u32, k: u32, g: u32, a: u32, b: u32, e: u32)
    requires lent { Lent (length words.old) (length starts.old) i k 7 26 }
    requires g_bound { g + 2 ≤ 2 ^ 26 }
    ensures { Written words.old starts.old i k (netlist_clauses g (same g a b e)) words.new starts.new }
{
    xor_gate(words, starts, i, k, g, a, b);
    and_gate(words, starts, i + 16, k + 4, g + 1, e, 2 * g + 1);
}

// Writes an equality for which there is room.
fn write_equal(
    words: &mut [u32],
    starts: &mut [u32],
    at: u32,
    start: u32,
    first: u32,
    a: &[u32],
    b: &[u32],
)
    requires lent { Lent (length words.old) (length starts.old) at start (7 * length a.now) (26 * length a.now) }
    requires a_bound { first + 2 * length a.now ≤ 2 ^ 26 }
    requires b_len { length b.now ≡ length a.now }
    ensures { Written words.old starts.old at start (netlist_clauses first (equality first (lit_at a.now) (lit_at b.now) (length a.now))) words.new starts.new }
{
    let mut i = at;
    let mut k = start;
    let mut g = first;
    let mut e = 2;
    for j in 0..a.len() {
        write_same(words, starts, i, k, g, a[j], b[j], e);
        e = 2 * g + 2;
        i += 26;
        k += 7;
        g += 2;
    }
}

// Whether two numbers of one width are equal.
pub fn equal(words: &mut [u32], starts: &mut [u32], n: Net, a: &[u32], b: &[u32]) -> Test
    requires ready { Ready n (2 * length a.now) }
    requires b_len { length b.now ≡ length a.now }
    requires a_nonzero { 0 < length a.now }
    ensures { Decides words.old starts.old n (same_number n.next (lit_at a.now) (lit_at b.now) (length a.now)) words.new starts.new result }
{
    let s = n.store;
    let w = a.len() as u32;
    let clauses = 7 * w;
    let count = 26 * w;
    let net = counted(n, 2 * w, clauses, count);
    let lit = 2 * (net.next - 1);
    if fits(words.len(), starts.len(), s, clauses, count) {
        write_equal(words, starts, s.words, s.clauses, n.next, a, b);
        return Test { net, lit };
    }
    Test { net, lit }
}
