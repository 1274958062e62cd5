// The line while it is written: bytes and texts, one after the other.
ghost use Rattle.std.specs.Prelude.{[], ◌∷◌, ◌+◌, ◌<◌, ◌≤◌, length};
ghost use Rattle.judge_line.specs.Inner.Appends.{Appends};

use crate::text::{write_byte, write_text};

// The line that is being written: the buffer, and the number of the byte that is written next.
#[derive(Drop)]
pub struct Line<'a> {
    pub out: &'a mut [u8],
    pub at: usize,
}

impl Line<'_> {
    // Writes a byte.
    pub fn byte(&mut self, byte: u8)
        requires { self.old.at < length self.old.out.now }
        ensures { Appends self.old (byte ∷ []) self.new }
    {
        self.at = write_byte(byte, self.out, self.at);
    }

    // Writes a text.
    pub fn text(&mut self, text: &[u8])
        requires { self.old.at + length text.now ≤ length self.old.out.now }
        ensures { Appends self.old text.now self.new }
    {
        self.at = write_text(text, self.out, self.at);
    }
}
