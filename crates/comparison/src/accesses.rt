// The literal that says that an index is at or above an array's size.
ghost use Rattle.std.specs.Prelude.{◌*◌, ◌<◌, ◌≤◌, length};
ghost use Rattle.arithmetic.specs.Bits.{lit_at};
ghost use Rattle.arithmetic.specs.Inner.Results.{Decides};
ghost use Rattle.comparison.specs.Access.{above};
ghost use Rattle.netlist.specs.Inner.Emit.{Ready};

use crate::comparisons::at_least_signed;
use arithmetic::Test;
use arithmetic::constants::const_bits;
use netlist::Net;

// Literal 3, without gates, where no index of this width reaches the size; else index ≥s size.
pub fn above(words: &mut [u32], starts: &mut [u32], n: Net, index: &[u32], size: u32) -> Test
    requires ready { Ready n (3 * length index.now) }
    requires index_nonzero { (0 < length index.now) × (length index.now ≤ 32) }
    ensures { Decides words.old starts.old n (above n.next (lit_at index.now) size (length index.now)) words.new starts.new result }
{
    let w = index.len();
    let k = w - 1;
    let high = size >> k;
    if 0 < high {
        return Test { net: n, lit: 3 };
    }
    let bits = const_bits(size);
    at_least_signed(words, starts, n, index, &bits[..w])
}
