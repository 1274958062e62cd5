// Translating an arm and translating an if: the two call each other, the bytes left falling.
ghost use Rattle.std.specs.Prelude.{◌≡◌, false, ◌<◌, length};
ghost use Rattle.routine_faults.specs.Inner.Sound.{SoundIf, Fine};
ghost use Rattle.translation_state.specs.Wires.{is_made};
ghost use Rattle.translation_walk.specs.Inner.Walker.{ArmEncoded, ArmReady, IfEncoded, IfReady};

use crate::Walk;
use crate::steps::{in_else, in_first, is_over, walk_join, walk_simple};
use lead::Target;
use routine_command::commands::command_at;
use routine_command::{Command, Condition, Mark};
use routine_header::Header;
use slices::byte_at;
use translation_if::begin_if;
use translation_state::literals::copy_bits;
use translation_state::{FEW_PLACES, MOST_PLACES};

// Translates the arm that stands where the walk is, inside `depth` ifs and ended by the mark `close`; ds are the decisions. No index is
// counted: a command's size tells where the next one stands.
#[cycle(encode_arm_encode_arms_encode_if)]
pub fn encode_arm(
    words: &mut [u32],
    starts: &mut [u32],
    lits: &mut [u32],
    bytes: &[u8],
    h: Header,
    t: Target,
    ds: &[u8],
    depth: u8,
    close: Mark,
    here: Walk,
) -> Walk
    requires { ArmReady bytes.now h t ds.now depth close lits.old here × Fine bytes.now h × (is_made here.reach.claim ≡ false) }
    ensures { ArmEncoded bytes.now h t ds.now depth close words.old starts.old lits.old here words.new starts.new lits.new result }
{
    let mut p = here;
    loop {
        match command_at(bytes, p.next) {
            Command::Missing => return p,
            Command::Close(_) => {
                p.next += 1;
                return p;
            }
            Command::If(c) => {
                p = encode_if(words, starts, lits, bytes, h, t, ds, depth, c, p);
                if is_over(p) {
                    return p;
                }
            }
            Command::Simple(c) => {
                p = walk_simple(words, starts, lits, bytes, h, t, c, p);
                if is_over(p) {
                    return p;
                }
            }
        }
    }
}

// Translates the if where the walk is, with room for the literals of its else.
#[cycle(encode_arm_encode_arms_encode_if)]
fn encode_if(
    words: &mut [u32],
    starts: &mut [u32],
    lits: &mut [u32],
    bytes: &[u8],
    h: Header,
    t: Target,
    ds: &[u8],
    depth: u8,
    c: Condition,
    here: Walk,
) -> Walk
    requires { IfReady bytes.now h t ds.now depth c lits.old here × (here.counts.ifs < 32) × SoundIf bytes.now h c × Fine bytes.now h × (is_made here.reach.claim ≡ false) }
    ensures { IfEncoded bytes.now h t ds.now depth c words.old starts.old lits.old here words.new starts.new lits.new result }
{
    let len = lits.len();
    if len <= FEW_PLACES {
        let mut few = [0u32; FEW_PLACES];
        let other = &mut few[..len];
        return encode_arms(words, starts, lits, other, bytes, h, t, ds, depth, c, here);
    }
    let mut many = [0u32; MOST_PLACES];
    let other = &mut many[..len];
    encode_arms(words, starts, lits, other, bytes, h, t, ds, depth, c, here)
}

// Translates the if where the walk is. Its number is the count of the ifs before it. The else starts from the bits at the if, in `other`.
#[cycle(encode_arm_encode_arms_encode_if)]
fn encode_arms(
    words: &mut [u32],
    starts: &mut [u32],
    lits: &mut [u32],
    other: &mut [u32],
    bytes: &[u8],
    h: Header,
    t: Target,
    ds: &[u8],
    depth: u8,
    c: Condition,
    here: Walk,
) -> Walk
    requires if_ready { IfReady bytes.now h t ds.now depth c lits.old here × (here.counts.ifs < 32) × SoundIf bytes.now h c × Fine bytes.now h × (is_made here.reach.claim ≡ false) }
    requires other_len { length other.old ≡ length lits.old }
    ensures { IfEncoded bytes.now h t ds.now depth c words.old starts.old lits.old here words.new starts.new lits.new result }
{
    let deep = depth + 1;
    copy_bits(other, lits);
    let d = byte_at(ds, usize::from(here.counts.ifs));
    let b = begin_if(words, starts, lits, here.net, bytes, h, c, d, here.reach);
    let p = in_first(here.next + 4, here, b);
    let x = encode_arm(words, starts, lits, bytes, h, t, ds, deep, Mark::Else, p);
    if is_over(x) {
        return x;
    }
    let q = in_else(here, b, x);
    let y = encode_arm(words, starts, other, bytes, h, t, ds, deep, Mark::EndIf, q);
    if is_over(y) {
        return y;
    }
    walk_join(words, starts, lits, bytes, h, b.condition, x, other, y)
}
