// The header: reading it, and the widths and sizes that it holds.
#![tactic(auto)]

ghost use Rattle.std.specs.Prelude.{◌≡◌, ℕ, Bool, ◌<◌, ◌≤◌};
ghost use Rattle.routine_header.specs.Header.{within, size_ok, first_bad, header_of, first_command, width, array_size};

use slices::{byte_at, half_at};

// A whole header. The widths and sizes stay in the bytes.
#[derive(Clone, Copy)]
pub struct Header {
    pub variables: u8,
    pub parameters: u8,
    pub arrays: u8,
}

// There is a byte at i, from lo to hi.
#[tactic(auto, unfolding(crate::specs::Header::within))]
fn is_within(bytes: &[u8], i: usize, lo: u8, hi: u8) -> bool
    ensures { result ≡ within bytes.now i lo hi }
{
    let b = byte_at(bytes, i);
    i < bytes.len() && lo <= b && b <= hi
}

// A whole size stands at i.
#[tactic(auto, unfolding(crate::specs::Header::size_ok))]
fn is_size(bytes: &[u8], i: usize) -> bool
    requires { i < 1000 }
    ensures { result ≡ size_ok bytes.now i }
{
    if bytes.len() <= i + 1 {
        return false;
    }
    let size = half_at(bytes, i);
    1 <= size && size <= 4096
}

// The first of n places from `from` on, `step` bytes apart, that is not ok, or the place after them all.
fn first_bad<F: Fn(usize) -> bool>(ok: F, step: usize, n: u8, from: usize) -> usize
    requires near { (from < 300) × (step ≤ 2) }
    requires callable { (i : ℕ) → i < 1000 → F.pre ok i }
    ensures { (P : ℕ → Bool) → ((i : ℕ) (b : Bool) → i < 1000 → F.post ok i b → b ≡ P i) → result ≡ first_bad P step n from }
{
    let mut at = from;
    for _ in 0..n {
        if !ok(at) {
            return at;
        }
        at += step;
    }
    at
}

// The header, or the offset that is wrong.
#[tactic(auto, unfolding(crate::specs::Header::header_of))]
pub fn read_header(bytes: &[u8]) -> Result<Header, usize>
    ensures { result ≡ header_of bytes.now }
{
    if !is_within(bytes, 0, 1, 1) {
        return Err(0);
    }
    if !is_within(bytes, 1, 1, 32) {
        return Err(1);
    }
    let variables = byte_at(bytes, 1);
    let v = variables as usize;
    let w = first_bad(|i| is_within(bytes, i, 1, 32), 1, variables, 2);
    if w != v + 2 {
        return Err(w);
    }
    if !is_within(bytes, v + 2, 0, variables) {
        return Err(v + 2);
    }
    if !is_within(bytes, v + 3, 0, 16) {
        return Err(v + 3);
    }
    let parameters = byte_at(bytes, v + 2);
    let arrays = byte_at(bytes, v + 3);
    let z = first_bad(|i| is_size(bytes, i), 2, arrays, v + 4);
    if z != v + 4 + 2 * (arrays as usize) {
        return Err(z);
    }
    Ok(Header {
        variables,
        parameters,
        arrays,
    })
}

// The offset of the first command.
pub fn first_command(h: Header) -> usize
    ensures { result ≡ first_command h }
{
    h.variables as usize + 4 + 2 * (h.arrays as usize)
}

// The width of variable v.
pub fn width_of(bytes: &[u8], v: u8) -> u8
    ensures { result ≡ width bytes.now v }
{
    byte_at(bytes, v as usize + 2)
}

// The size of an array.
pub fn size_of_array(bytes: &[u8], h: Header, array: u8) -> u32
    ensures { result ≡ array_size bytes.now h array }
{
    half_at(bytes, h.variables as usize + 4 + 2 * (array as usize))
}
