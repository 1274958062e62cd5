// The end of an if: the literals of its arms joined, in the place of the first arm's.
ghost use Rattle.std.specs.Prelude.{◌≡◌, ◌+◌, ◌≤◌, length};
ghost use Rattle.std.proofs.lemmas.List.Edits.{sets};
ghost use Rattle.routine_faults.specs.Inner.Sound.{Fine};
ghost use Rattle.netlist.specs.Inner.Emit.{Emitted, Ready};
ghost use Rattle.arithmetic.specs.Bits.{bits_at, tabulate};
ghost use Rattle.arithmetic.specs.Join.{join};
ghost use Rattle.translation_state.specs.Wires.{all_places};
ghost use Rattle.translation_state.specs.Inner.Reach.{wires_of};
ghost use Rattle.translation_if.specs.If.{join_groups, join_arms};
ghost use Rattle.translation_command.specs.Inner.Encodes.{Encodes};

use netlist::{Net, Node, emit, emit_mux, opposite};
use routine_header::{Header, width_of};
use translation_command::Encoded;
use translation_state::Reach;
use translation_state::literals::place_of;

// A group of bits joined: the first arm's where the condition c holds, else the other's.
fn join_group(
    words: &mut [u32],
    starts: &mut [u32],
    lits: &mut [u32],
    n: Net,
    c: u32,
    other: &[u32],
    place: usize,
    w: usize,
) -> Net
    requires ready { Ready n w }
    requires w_in_bounds { (place + w ≤ length lits.old) × (length other.now ≡ length lits.old) }
    ensures emitted { Emitted words.old starts.old n (join n.next c (bits_at lits.old place w) (bits_at other.now place w) w).nodes words.new starts.new result }
    ensures lits_after { lits.new ≡ sets lits.old place (tabulate (join n.next c (bits_at lits.old place w) (bits_at other.now place w) w).bits w) }
{
    let mut net = n;
    for j in 0..w {
        let at = place + j;
        let x = lits[at];
        let y = other[at];
        if x != y {
            lits[at] = 2 * net.next;
            net = emit_mux(words, starts, net, c, x, y);
        }
    }
    net
}

// The groups of bits joined one by one; the else's literals are `other`.
fn join_groups(
    words: &mut [u32],
    starts: &mut [u32],
    lits: &mut [u32],
    n: Net,
    bytes: &[u8],
    h: Header,
    c: u32,
    other: &[u32],
) -> Net
    requires ready { Ready n 2048 }
    requires lits_len { (length lits.old ≡ all_places h) × (length other.now ≡ all_places h) }
    requires fine { Fine bytes.now h }
    ensures emitted { Emitted words.old starts.old n (join_groups bytes.now n.next c lits.old other.now h.variables).nodes words.new starts.new result }
    ensures lits_after { lits.new ≡ (join_groups bytes.now n.next c lits.old other.now h.variables).lits }
{
    let mut net = n;
    for v in 0..h.variables {
        let w = usize::from(width_of(bytes, v));
        net = join_group(words, starts, lits, net, c, other, place_of(v), w);
    }
    net
}

// The end of an if: the variables, then arrival. The first arm left lits and x, the else left other and y.
pub fn join_arms(
    words: &mut [u32],
    starts: &mut [u32],
    lits: &mut [u32],
    n: Net,
    bytes: &[u8],
    h: Header,
    c: u32,
    x: Reach,
    other: &[u32],
    y: Reach,
) -> Encoded
    requires ready { Ready n 8192 }
    requires lits_len { (length lits.old ≡ all_places h) × (length other.now ≡ all_places h) }
    requires fine { Fine bytes.now h }
    ensures { Encodes words.old starts.old n (join_arms bytes.now h n.next c (wires_of lits.old x) (wires_of other.now y)) words.new starts.new lits.new result }
{
    let n1 = join_groups(words, starts, lits, n, bytes, h, c, other);
    let a = opposite(x.arrival);
    let b = opposite(y.arrival);
    let arrival = 2 * n1.next + 1;
    let net = emit(words, starts, n1, Node::And(a, b));
    Encoded {
        net,
        reach: Reach {
            arrival,
            claim: None,
        },
    }
}
