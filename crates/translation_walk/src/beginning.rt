// The beginning of a translation.
ghost use Rattle.std.specs.Prelude.{◌≡◌, length, replicate};
ghost use Rattle.routine_faults.specs.Inner.Sound.{Fine};
ghost use Rattle.netlist.specs.Inner.Emit.{Ready};
ghost use Rattle.translation_state.specs.Wires.{all_places};
ghost use Rattle.translation_walk.specs.Inner.Walker.{Begun, beginning};

use crate::Walk;
use arithmetic::input_words::{input_bits, take_inputs};
use netlist::Net;
use routine_faults::steps::no_counts;
use routine_faults::words::given_of;
use routine_header::{Header, width_of};
use translation_state::Reach;
use translation_state::literals::{place_of, store_bits};

// The bits of all variables of the routine, from variable 0 on, take the next variables of the clauses.
pub fn begin_variables(lits: &mut [u32], n: Net, bytes: &[u8], h: Header) -> Net
    requires lits_len { (length lits.old ≡ all_places h) × (lits.old ≡ replicate (length lits.old) 3) }
    requires ready { Ready n 2048 × (n.next ≡ 2) }
    requires fine { Fine bytes.now h }
    ensures { Begun bytes.now h n lits.new result }
{
    let count = given_of(h);
    let mut net = n;
    for p in 0..count {
        let w = usize::from(width_of(bytes, p));
        let bits = input_bits(net.next);
        net = take_inputs(net, w);
        store_bits(lits, place_of(p), &bits[..w]);
    }
    net
}

// The walk at the first command: arrival begins as 2, and there is no claim.
pub fn first_walk(next: usize, net: Net) -> Walk
    ensures { result ≡ beginning next net }
{
    Walk {
        next,
        counts: no_counts(),
        net,
        reach: Reach {
            arrival: 2,
            claim: None,
        },
    }
}
