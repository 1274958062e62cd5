// Long division: for each bit of the dividend from the top, a subtraction and a choice.
#![tactic(auto)]

ghost use Rattle.std.specs.Prelude.{◌≡◌, ◌*◌, ◌+◌, ◌<◌, ◌^◌, ◌≤◌, suc, length};
ghost use Rattle.arithmetic.specs.Bits.{lit_at, places, tabulate};
ghost use Rattle.division.specs.Division.{division_step, quotient_bit, remainder_bit, division_steps};
ghost use Rattle.arithmetic.specs.Extend.{extend};
ghost use Rattle.cnf.specs.Inner.Append.{Lent, Written};
ghost use Rattle.netlist.specs.Inner.Emit.{Emitted, Ready};
ghost use Rattle.netlist.specs.Node.{netlist_clauses};

use arithmetic::PLACES;
use arithmetic::choices::write_choice;
use arithmetic::extensions::{extended, rising};
use arithmetic::input_words::input_bits;
use arithmetic::sums::{sum_bits, write_sum};
use cnf::fits;
use netlist::{Net, counted};

// Writes one step, for which there is room: the divisor d is subtracted from the shifted remainder r, and the last carry chooses the difference or r.
fn write_step(
    words: &mut [u32],
    starts: &mut [u32],
    at: u32,
    start: u32,
    first: u32,
    r: &[u32],
    d: &[u32],
)
    requires lent { Lent (length words.old) (length starts.old) at start (18 * length r.now) (72 * length r.now) }
    requires r_bound { first + 4 * length r.now ≤ 2 ^ 26 }
    requires d_len { length d.now ≡ length r.now }
    requires r_nonzero { (0 < length r.now) × (length r.now ≤ places) }
    ensures { Written words.old starts.old at start (netlist_clauses first (division_step first (lit_at r.now) (lit_at d.now) (length r.now))) words.new starts.new }
{
    let v = r.len();
    let size = v as u32;
    let difference = sum_bits(first);
    write_sum(words, starts, at, start, first, r, d, true, false, 2);
    let i = at + 56 * size;
    let k = start + 14 * size;
    let g = first + 3 * size;
    let carry = 2 * (g - 1);
    write_choice(words, starts, i, k, g, carry, &difference[..v], r);
}

// Writes a division for which there is room. What a step chose is the remainder that the next one shifts up.
fn write_division(
    words: &mut [u32],
    starts: &mut [u32],
    at: u32,
    start: u32,
    first: u32,
    s: &[u32],
    d: &[u32],
)
    requires lent { Lent (length words.old) (length starts.old) at start (18 * suc (length s.now) * length s.now) (72 * suc (length s.now) * length s.now) }
    requires s_bound { first + 4 * suc (length s.now) * length s.now ≤ 2 ^ 26 }
    requires d_len { length d.now ≡ length s.now }
    requires s_len_bound { length s.now < places }
    ensures { Written words.old starts.old at start (netlist_clauses first (division_steps first (lit_at s.now) (lit_at d.now) (length s.now) (length s.now))) words.new starts.new }
{
    let v = s.len() + 1;
    let size = v as u32;
    let divisor = extended(d, 3);
    let mut up = [3u32; PLACES];
    let mut i = at;
    let mut k = start;
    let mut g = first;
    for j in (0..s.len()).rev() {
        up[0] = s[j];
        write_step(words, starts, i, k, g, &up[..v], &divisor[..v]);
        up = rising(2 * (g + 3 * size), 2, 1);
        i += 72 * size;
        k += 18 * size;
        g += 4 * size;
    }
}

// The first number divided by the second: the gates that quotient and remainder have in common.
pub fn emit_division(words: &mut [u32], starts: &mut [u32], n: Net, s: &[u32], d: &[u32]) -> Net
    requires ready { Ready n (4 * suc (length s.now) * length s.now) }
    requires d_len { length d.now ≡ length s.now }
    requires s_len_bound { length s.now < places }
    ensures { Emitted words.old starts.old n (division_steps n.next (lit_at s.now) (lit_at d.now) (length s.now) (length s.now)) words.new starts.new result }
{
    let store = n.store;
    let w = s.len() as u32;
    let places = (w + 1) * w;
    let clauses = 18 * places;
    let count = 72 * places;
    let next = counted(n, 4 * places, clauses, count);
    if fits(words.len(), starts.len(), store, clauses, count) {
        write_division(words, starts, store.words, store.clauses, n.next, s, d);
        return next;
    }
    next
}

// The quotient's literals of a division of w bits whose first variable is g: the last carries, that of the first step on top.
pub fn quotient_bits(g: u32, w: usize) -> [u32; PLACES]
    requires { (g + 4 * suc w * w ≤ 2 ^ 26) × (w < places) }
    ensures { result ≡ tabulate (extend (quotient_bit g w) w 3) places }
{
    let mut r = [3u32; PLACES];
    let step = 8 * (w as u32 + 1);
    let mut x = 2 * (g + 3 * w as u32 + 2);
    for j in (0..w).rev() {
        r[j] = x;
        x += step;
    }
    r
}

// The remainder's literals of such a division: what the last step chose.
pub fn remainder_bits(g: u32, w: usize) -> [u32; PLACES]
    requires { (g + 4 * suc w * w ≤ 2 ^ 26) × (0 < w) × (w < places) }
    ensures { result ≡ tabulate (remainder_bit g (suc w) w) places }
{
    let size = w as u32 + 1;
    input_bits(g + 4 * size * (w as u32 - 1) + 3 * size)
}
