// One of two numbers by a condition, chosen place by place.
ghost use Rattle.std.specs.Prelude.{◌≡◌, ◌*◌, ◌+◌, ◌^◌, ◌≤◌, length};
ghost use Rattle.arithmetic.specs.Bits.{lit_at};
ghost use Rattle.arithmetic.specs.Choose.{choose, chooser};
ghost use Rattle.arithmetic.specs.Inner.Results.{Makes};
ghost use Rattle.cnf.specs.Inner.Append.{Lent, Written};
ghost use Rattle.netlist.specs.Inner.Emit.{Ready};
ghost use Rattle.netlist.specs.Node.{netlist_clauses};

use crate::Bundle;
use crate::input_words::input_bits;
use cnf::fits;
use netlist::gates::mux_gate;
use netlist::{Net, counted};

// Writes a choice for which there is room.
pub fn write_choice(
    words: &mut [u32],
    starts: &mut [u32],
    at: u32,
    start: u32,
    first: u32,
    c: u32,
    a: &[u32],
    b: &[u32],
)
    requires lent { Lent (length words.old) (length starts.old) at start (4 * length a.now) (16 * length a.now) }
    requires a_bound { first + length a.now ≤ 2 ^ 26 }
    requires b_len { length b.now ≡ length a.now }
    ensures { Written words.old starts.old at start (netlist_clauses first (chooser c (lit_at a.now) (lit_at b.now) (length a.now))) words.new starts.new }
{
    let mut i = at;
    let mut k = start;
    let mut g = first;
    for j in 0..a.len() {
        mux_gate(words, starts, i, k, g, c, a[j], b[j]);
        i += 16;
        k += 4;
        g += 1;
    }
}

// The first number where the condition c holds, else the second: a MUX for every place.
pub fn choose(words: &mut [u32], starts: &mut [u32], n: Net, c: u32, a: &[u32], b: &[u32]) -> Bundle
    requires ready { Ready n (length a.now) }
    requires b_len { length b.now ≡ length a.now }
    ensures { Makes words.old starts.old n (choose n.next c (lit_at a.now) (lit_at b.now) (length a.now)) words.new starts.new result }
{
    let s = n.store;
    let w = a.len() as u32;
    let clauses = 4 * w;
    let count = 16 * w;
    let net = counted(n, w, clauses, count);
    let bits = input_bits(n.next);
    if fits(words.len(), starts.len(), s, clauses, count) {
        write_choice(words, starts, s.words, s.clauses, n.next, c, a, b);
        return Bundle { net, bits };
    }
    Bundle { net, bits }
}
