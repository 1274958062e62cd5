// The literals of the variables' bits, arrival and the claim.
ghost use Rattle.std.specs.Prelude.{◌≡◌, ◌≤◌, ◌+◌, length};
ghost use Rattle.std.proofs.lemmas.List.Edits.{sets};
ghost use Rattle.translation_state.specs.Wires.{all_places, is_made, place_of};
ghost use Rattle.translation_state.specs.Inner.Reach.{reaching};

use crate::{Reach, VARIABLE_PLACES};
use routine_header::Header;

// The first place of variable v.
pub fn place_of(v: u8) -> usize
    ensures { result ≡ place_of v }
{
    VARIABLE_PLACES * (v as usize)
}

// The bits r become the literals from a place on.
pub fn store_bits(lits: &mut [u32], place: usize, r: &[u32])
    requires { place + length r.now ≤ length lits.old }
    ensures { lits.new ≡ sets lits.old place r.now }
{
    lits[place..place + r.len()].copy_from_slice(r);
}

// How many places the variables of a routine have.
pub fn places_in(h: Header) -> usize
    ensures { result ≡ all_places h }
{
    VARIABLE_PLACES * (h.variables as usize)
}

// The literals, copied: an else starts from those at its if. One by one, since a compiler cannot see that the two lie apart: the library's copy would then ask for C's
// `memmove`, which nothing else here needs from outside.
pub fn copy_bits(to: &mut [u32], from: &[u32])
    requires { length to.old ≡ length from.now }
    ensures { to.new ≡ from.now }
{
    for j in 0..from.len() {
        to[j] = from[j];
    }
}

// Another arrival.
pub fn with_arrival(s: Reach, arrival: u32) -> Reach
    ensures { result ≡ reaching s arrival }
{
    Reach { arrival, ..s }
}

// Whether the claim was made.
pub fn is_made(s: Reach) -> bool
    ensures { result ≡ is_made s.claim }
{
    s.claim.is_some()
}
