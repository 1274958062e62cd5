// An access: its index against the size.
#![tactic(auto)]

ghost use Rattle.std.specs.Prelude.{◌*◌, ◌+◌, ◌<◌, ◌≤◌, length};
ghost use Rattle.arithmetic.specs.Bits.{lit_at};
ghost use Rattle.arithmetic.specs.Inner.Results.{Decides};
ghost use Rattle.translation_access.specs.Index.{passing, claim};
ghost use Rattle.netlist.specs.Inner.Emit.{Ready};

use arithmetic::Test;
use comparison::accesses::above;
use netlist::{Net, Node, emit, opposite};

// An access that is not the named one: the literal is arrival after it.
pub fn pass_access(
    words: &mut [u32],
    starts: &mut [u32],
    n: Net,
    index: &[u32],
    size: u32,
    arrival: u32,
) -> Test
    requires ready { Ready n (3 * length index.now + 2) }
    requires index_nonzero { (0 < length index.now) × (length index.now ≤ 32) }
    ensures { Decides words.old starts.old n (passing n.next (lit_at index.now) size (length index.now) arrival) words.new starts.new result }
{
    let up = above(words, starts, n, index, size);
    let net = up.net;
    let not_top = opposite(index[index.len() - 1]);
    let not_above = opposite(up.lit);
    let inside = 2 * net.next;
    let lit = inside + 2;
    let n1 = emit(words, starts, net, Node::And(not_top, not_above));
    let n2 = emit(words, starts, n1, Node::And(arrival, inside));
    Test { net: n2, lit }
}

// The named access: the literal says that the index lies on the side. The side is its number, and one match by it: the definition is of every number.
pub fn claim_access(
    words: &mut [u32],
    starts: &mut [u32],
    n: Net,
    index: &[u32],
    size: u32,
    side: u8,
) -> Test
    requires ready { Ready n (3 * length index.now + 2) }
    requires index_nonzero { (0 < length index.now) × (length index.now ≤ 32) }
    ensures { Decides words.old starts.old n (claim side n.next (lit_at index.now) size (length index.now)) words.new starts.new result }
{
    match side {
        0 => {
            let lit = index[index.len() - 1];
            Test { net: n, lit }
        }
        1 => above(words, starts, n, index, size),
        _ => Test { net: n, lit: 3 },
    }
}
