// The steps of a walk over the commands: a command that is no if, and from arm to arm.
ghost use Rattle.std.specs.Prelude.{◌≡◌, false, ◌+◌, ◌<◌, ◌≤◌, length};
ghost use Rattle.routine_command.specs.Command.{simple_size};
ghost use Rattle.routine_faults.specs.Step.{too_many, counts_after};
ghost use Rattle.routine_faults.specs.Inner.Sound.{Sound, Fine};
ghost use Rattle.netlist.specs.Inner.Emit.{Ready};
ghost use Rattle.translation_state.specs.Wires.{all_places, is_made};
ghost use Rattle.translation_command.specs.Command.{simple};
ghost use Rattle.translation_if.specs.If.{join_arms};
ghost use Rattle.translation_walk.specs.Inner.Walker.{WalksTo, wires_at, in_first, in_else};

use crate::Walk;
use lead::Target;
use routine_command::Simple;
use routine_command::commands::simple_size;
use routine_faults::steps::{counts_after, counts_after_if};
use routine_header::Header;
use translation_command::commands::encode_simple;
use translation_if::IfBegun;
use translation_if::joins::join_arms;
use translation_state::literals::{is_made, with_arrival};

// Whether the claim was made, so that the translation is over.
pub fn is_over(p: Walk) -> bool
    ensures { result ≡ is_made p.reach.claim }
{
    is_made(p.reach)
}

// Translates the command c, which is no if, where the walk is.
#[tactic(auto, using(crate::proofs::Translating::arrives_by))]
pub fn walk_simple(
    words: &mut [u32],
    starts: &mut [u32],
    lits: &mut [u32],
    bytes: &[u8],
    h: Header,
    t: Target,
    c: Simple,
    here: Walk,
) -> Walk
    requires ready { Ready here.net 8192 × (length lits.old ≡ all_places h) }
    requires sound { Sound bytes.now h c × (too_many c here.counts ≡ false) × (here.next + simple_size c ≤ length bytes.now) }
    requires fine { Fine bytes.now h × (is_made here.reach.claim ≡ false) }
    ensures { WalksTo words.old starts.old here.net (simple bytes.now h t here.net.next c here.counts (wires_at lits.old here)) (here.next + simple_size c) (counts_after c here.counts) words.new starts.new lits.new result }
{
    // told before the call, which is a little faster than after it
    let next = here.next + simple_size(c);
    let counts = counts_after(c, here.counts);
    let m = encode_simple(
        words,
        starts,
        lits,
        here.net,
        bytes,
        h,
        t,
        c,
        here.counts,
        here.reach,
    );
    Walk {
        next,
        counts,
        net: m.net,
        reach: m.reach,
    }
}

// The walk at the first arm of the if where it was, whose commands begin at `next`.
pub fn in_first(next: usize, here: Walk, b: IfBegun) -> Walk
    requires { here.counts.ifs < 32 }
    ensures { result ≡ in_first next here b }
{
    Walk {
        next,
        counts: counts_after_if(here.counts),
        net: b.net,
        reach: with_arrival(here.reach, b.first),
    }
}

// The walk at the else, after the first arm x.
pub fn in_else(here: Walk, b: IfBegun, x: Walk) -> Walk
    ensures { result ≡ in_else here b x }
{
    Walk {
        reach: with_arrival(here.reach, b.second),
        ..x
    }
}

// The walk after an if whose condition is c: the first arm ended at x with lits, the else at y with other.
#[tactic(auto, using(crate::proofs::Translating::arrives_by))]
pub fn walk_join(
    words: &mut [u32],
    starts: &mut [u32],
    lits: &mut [u32],
    bytes: &[u8],
    h: Header,
    c: u32,
    x: Walk,
    other: &[u32],
    y: Walk,
) -> Walk
    requires { Ready y.net 8192 × (length lits.old ≡ all_places h) × (length other.now ≡ all_places h) × Fine bytes.now h }
    ensures { WalksTo words.old starts.old y.net (join_arms bytes.now h y.net.next c (wires_at lits.old x) (wires_at other.now y)) y.next y.counts words.new starts.new lits.new result }
{
    let m = join_arms(
        words, starts, lits, y.net, bytes, h, c, x.reach, other, y.reach,
    );
    Walk {
        net: m.net,
        reach: m.reach,
        ..y
    }
}
