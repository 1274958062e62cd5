// The beginning and the end of an if.
#![tactic(auto)]

pub mod joins;

ghost use Rattle.std.specs.Prelude.{◌≡◌, length};
ghost use Rattle.routine_faults.specs.Inner.Sound.{SoundIf, Fine};
ghost use Rattle.netlist.specs.Inner.Emit.{Ready};
ghost use Rattle.arithmetic.specs.Inner.Results.{Decides};
ghost use Rattle.translation_state.specs.Wires.{all_places};
ghost use Rattle.translation_state.specs.Inner.Reach.{wires_of};
ghost use Rattle.translation_if.specs.If.{arm_arrival};
ghost use Rattle.translation_if.specs.Inner.BeginsIf.{BeginsIf};

use arithmetic::Test;
use comparison::relation;
use netlist::{Net, Node, emit, opposite};
use routine_command::Condition;
use routine_header::{Header, width_of};
use translation_state::Reach;
use translation_state::literals::place_of;

// The beginning of an if: what is emitted, the literal of its condition, and the arrivals of its arms.
#[derive(Clone, Copy)]
pub struct IfBegun {
    pub net: Net,
    pub condition: u32,
    pub first: u32,
    pub second: u32,
}

// The arrival of an arm: 3, without a gate, if the other arm was decided.
fn arm_arrival(
    words: &mut [u32],
    starts: &mut [u32],
    n: Net,
    other: bool,
    arrival: u32,
    c: u32,
) -> Test
    requires { Ready n 1 }
    ensures { Decides words.old starts.old n (arm_arrival other n.next arrival c) words.new starts.new result }
{
    if other {
        return Test { net: n, lit: 3 };
    }
    let lit = 2 * n.next;
    let net = emit(words, starts, n, Node::And(arrival, c));
    Test { net, lit }
}

// The condition and both arrivals, before either arm's commands; d is the decision.
pub fn begin_if(
    words: &mut [u32],
    starts: &mut [u32],
    lits: &[u32],
    n: Net,
    bytes: &[u8],
    h: Header,
    c: Condition,
    d: u8,
    s: Reach,
) -> IfBegun
    requires ready { Ready n 8192 }
    requires lits_len { length lits.now ≡ all_places h }
    requires sound_if { SoundIf bytes.now h c × Fine bytes.now h }
    ensures { BeginsIf bytes.now words.old starts.old n c d (wires_of lits.now s) words.new starts.new result }
{
    let w = usize::from(width_of(bytes, c.s));
    let a = place_of(c.s);
    let b = place_of(c.t);
    let test = relation(
        words,
        starts,
        n,
        c.relation,
        &lits[a..a + w],
        &lits[b..b + w],
    );
    let holds = test.lit;
    let x = arm_arrival(words, starts, test.net, d == 1, s.arrival, holds);
    let fails = opposite(holds);
    let y = arm_arrival(words, starts, x.net, d == 0, s.arrival, fails);
    IfBegun {
        net: y.net,
        condition: holds,
        first: x.lit,
        second: y.lit,
    }
}
