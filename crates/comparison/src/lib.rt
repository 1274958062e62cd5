// Comparisons of numbers of one width: the ten relations, and an index against a size.
#![tactic(auto)]

pub mod accesses;
pub mod comparisons;

ghost use Rattle.std.specs.Prelude.{◌≡◌, ◌*◌, ◌<◌, ◌≤◌, length};
ghost use Rattle.arithmetic.specs.Bits.{lit_at, places};
ghost use Rattle.arithmetic.specs.Inner.Results.{Decides};
ghost use Rattle.comparison.specs.Relation.{relation};
ghost use Rattle.netlist.specs.Inner.Emit.{Ready};
ghost use Rattle.netlist.specs.Literal.{opp};

use crate::comparisons::{at_least_signed, equal, less, less_signed};
use arithmetic::Test;
use netlist::Net;

// The opposite answer.
pub fn turned(t: Test) -> Test
    ensures { (result.net ≡ t.net) × (result.lit ≡ opp t.lit) }
{
    let net = t.net;
    let lit = netlist::opposite(t.lit);
    Test { net, lit }
}

// Relation number rel, from 0 to 9: =, ≠, <u, ≤u, >u, ≥u, <s, ≤s, >s, ≥s. No other holds.
// A number and no enum, and one match by it, as in the relations of words: the definition speaks of every number.
pub fn relation(
    words: &mut [u32],
    starts: &mut [u32],
    n: Net,
    rel: u8,
    a: &[u32],
    b: &[u32],
) -> Test
    requires ready { Ready n (3 * length a.now) }
    requires b_len { length b.now ≡ length a.now }
    requires a_nonzero { (0 < length a.now) × (length a.now ≤ places) }
    ensures { Decides words.old starts.old n (relation rel n.next (lit_at a.now) (lit_at b.now) (length a.now)) words.new starts.new result }
{
    match rel {
        0 => equal(words, starts, n, a, b),
        1 => turned(equal(words, starts, n, a, b)),
        2 => less(words, starts, n, a, b),
        3 => turned(less(words, starts, n, b, a)),
        4 => less(words, starts, n, b, a),
        5 => turned(less(words, starts, n, a, b)),
        6 => less_signed(words, starts, n, a, b),
        7 => turned(less_signed(words, starts, n, b, a)),
        8 => less_signed(words, starts, n, b, a),
        9 => at_least_signed(words, starts, n, a, b),
        _ => Test { net: n, lit: 3 },
    }
}
