// Text, written into a lent buffer.
ghost use Rattle.std.specs.Prelude.{[], ◌∷◌, ◌+◌, ◌<◌, ◌≤◌, length};
ghost use Rattle.judge_line.specs.Writes.{Writes};

// Writes a byte at `at`, and returns the number after it.
pub fn write_byte(byte: u8, out: &mut [u8], at: usize) -> usize
    requires { at < length out.old }
    ensures { Writes out.old at (byte ∷ []) out.new result }
{
    out[at] = byte;
    at + 1
}

// Writes a text from `at` on, and returns the number after its last byte.
pub fn write_text(text: &[u8], out: &mut [u8], at: usize) -> usize
    requires { at + length text.now ≤ length out.old }
    ensures { Writes out.old at text.now out.new result }
{
    let next = at + text.len();
    out[at..next].copy_from_slice(text);
    next
}
