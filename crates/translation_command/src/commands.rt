// Commands that are no if.
ghost use Rattle.std.specs.Prelude.{◌≡◌, false, ◌<◌, length};
ghost use Rattle.routine_faults.specs.Inner.Sound.{Sound, Fine};
ghost use Rattle.netlist.specs.Inner.Emit.{Emitted, Ready};
ghost use Rattle.arithmetic.specs.Extend.{const_bit};
ghost use Rattle.translation_state.specs.Wires.{all_places, bits_in, bits_set, is_made};
ghost use Rattle.translation_state.specs.Inner.Reach.{wires_of};
ghost use Rattle.translation_command.specs.Operation.{conversion, computation};
ghost use Rattle.translation_command.specs.Command.{simple};
ghost use Rattle.translation_command.specs.Inner.Encodes.{access_of, Encodes};
ghost use Rattle.routine_header.specs.Header.{width};
ghost use Rattle.routine_command.specs.declared.Simple.{Simple};

use crate::Encoded;
use crate::operations::{compute, convert};
use arithmetic::constants::const_bits;
use arithmetic::input_words::{input_bits, take_inputs};
use lead::Target;
use netlist::Net;
use routine_command::{Conversion, Operation, Simple};
use routine_faults::Counts;
use routine_faults::steps::accesses_of;
use routine_header::{Header, size_of_array, width_of};
use translation_access::{claim_access, pass_access};
use translation_state::literals::{is_made, place_of, store_bits, with_arrival};
use translation_state::{Claim, Reach};

// d := c.
fn encode_set(lits: &mut [u32], bytes: &[u8], h: Header, d: u8, c: u32)
    requires lits_len { length lits.old ≡ all_places h }
    requires sound { Sound bytes.now h (Simple.Set d c) × Fine bytes.now h }
    ensures { lits.new ≡ bits_set bytes.now lits.old d (const_bit c) }
{
    let w = width_of(bytes, d) as usize;
    let bits = const_bits(c);
    store_bits(lits, place_of(d), &bits[..w]);
}

// Copy, cut, and the extensions.
fn encode_convert(lits: &mut [u32], bytes: &[u8], h: Header, op: Conversion, d: u8, a: u8)
    requires lits_len { length lits.old ≡ all_places h }
    requires sound { Sound bytes.now h (Simple.Convert op d a) × Fine bytes.now h }
    ensures { lits.new ≡ bits_set bytes.now lits.old d (conversion op (bits_in bytes.now lits.old a) (width bytes.now a)) }
{
    let from = place_of(a);
    let to = from + width_of(bytes, a) as usize;
    let bits = convert(op, &lits[from..to]);
    let w = width_of(bytes, d) as usize;
    store_bits(lits, place_of(d), &bits[..w]);
}

// Add, subtract, multiply, quotient, remainder.
fn encode_compute(
    words: &mut [u32],
    starts: &mut [u32],
    lits: &mut [u32],
    n: Net,
    bytes: &[u8],
    h: Header,
    op: Operation,
    d: u8,
    a: u8,
    b: u8,
) -> Net
    requires ready { Ready n 8192 }
    requires lits_len { length lits.old ≡ all_places h }
    requires sound { Sound bytes.now h (Simple.Compute op d a b) × Fine bytes.now h }
    ensures emitted { Emitted words.old starts.old n (computation op n.next (bits_in bytes.now lits.old a) (bits_in bytes.now lits.old b) (width bytes.now d)).nodes words.new starts.new result }
    ensures lits_after { lits.new ≡ bits_set bytes.now lits.old d (computation op n.next (bits_in bytes.now lits.old a) (bits_in bytes.now lits.old b) (width bytes.now d)).bits }
{
    let w = width_of(bytes, d) as usize;
    let x = place_of(a);
    let y = place_of(b);
    let r = compute(words, starts, n, op, &lits[x..x + w], &lits[y..y + w]);
    let bits = r.bits;
    store_bits(lits, place_of(d), &bits[..w]);
    r.net
}

// An access: the named one makes the claim, and another one leaves arrival.
fn encode_access(
    words: &mut [u32],
    starts: &mut [u32],
    lits: &[u32],
    n: Net,
    bytes: &[u8],
    h: Header,
    t: Target,
    array: u8,
    i: u8,
    k: Counts,
    s: Reach,
) -> Encoded
    requires ready { Ready n 8192 }
    requires lits_len { length lits.now ≡ all_places h }
    requires i_lt_variables { (i < h.variables) × Fine bytes.now h }
    ensures { Encodes words.old starts.old n (access_of bytes.now h t n.next array i k (wires_of lits.now s)) words.new starts.new lits.now result }
{
    let arrival = s.arrival;
    let from = place_of(i);
    let to = from + width_of(bytes, i) as usize;
    let size = size_of_array(bytes, h, array);
    if accesses_of(k) == u32::from(t.access) {
        let r = claim_access(words, starts, n, &lits[from..to], size, t.side);
        let net = r.net;
        let claim = Some(Claim {
            arrival,
            side: r.lit,
        });
        let reach = Reach { arrival, claim };
        return Encoded { net, reach };
    }
    let r = pass_access(words, starts, n, &lits[from..to], size, arrival);
    let net = r.net;
    let reach = with_arrival(s, r.lit);
    Encoded { net, reach }
}

// A read: an access, and then its bits as inputs.
fn encode_read(
    words: &mut [u32],
    starts: &mut [u32],
    lits: &mut [u32],
    n: Net,
    bytes: &[u8],
    h: Header,
    t: Target,
    d: u8,
    array: u8,
    i: u8,
    k: Counts,
    s: Reach,
) -> Encoded
    requires ready { Ready n 8192 }
    requires lits_len { length lits.old ≡ all_places h }
    requires sound { Sound bytes.now h (Simple.Read d array i) × Fine bytes.now h × (is_made s.claim ≡ false) }
    ensures { Encodes words.old starts.old n (simple bytes.now h t n.next (Simple.Read d array i) k (wires_of lits.old s)) words.new starts.new lits.new result }
{
    let m = encode_access(words, starts, lits, n, bytes, h, t, array, i, k, s);
    let reach = m.reach;
    if is_made(reach) {
        return m;
    }
    let first = m.net;
    let bits = input_bits(first.next);
    let w = width_of(bytes, d) as usize;
    let net = take_inputs(first, w);
    store_bits(lits, place_of(d), &bits[..w]);
    Encoded { net, reach }
}

// A command that is no if, after the counts k.
pub fn encode_simple(
    words: &mut [u32],
    starts: &mut [u32],
    lits: &mut [u32],
    n: Net,
    bytes: &[u8],
    h: Header,
    t: Target,
    c: Simple,
    k: Counts,
    s: Reach,
) -> Encoded
    requires ready { Ready n 8192 }
    requires lits_len { length lits.old ≡ all_places h }
    requires sound { Sound bytes.now h c × Fine bytes.now h × (is_made s.claim ≡ false) }
    ensures { Encodes words.old starts.old n (simple bytes.now h t n.next c k (wires_of lits.old s)) words.new starts.new lits.new result }
{
    match c {
        Simple::Set { d, c } => {
            encode_set(lits, bytes, h, d, c);
            Encoded { net: n, reach: s }
        }
        Simple::Convert { op, d, s: a } => {
            encode_convert(lits, bytes, h, op, d, a);
            Encoded { net: n, reach: s }
        }
        Simple::Compute { op, d, s: a, t: b } => {
            let net = encode_compute(words, starts, lits, n, bytes, h, op, d, a, b);
            Encoded { net, reach: s }
        }
        Simple::Read { d, array, i } => {
            encode_read(words, starts, lits, n, bytes, h, t, d, array, i, k, s)
        }
        Simple::Write { array, i, .. } => {
            encode_access(words, starts, lits, n, bytes, h, t, array, i, k, s)
        }
    }
}
