// Numbers in decimal, written on the line.
ghost use Rattle.std.specs.Prelude.{◌≡◌, ◌++◌, ◌+◌, ◌<◌, ◌≤◌, length};
ghost use Rattle.judge_line.specs.Text.{decimal};
ghost use Rattle.judge_line.specs.Inner.Appends.{Appends};

use crate::line::Line;

// The byte of a digit.
fn digit(d: usize) -> u8
    requires { d < 10 }
    ensures { result ≡ 48 + d }
{
    48 + d as u8
}

impl Line<'_> {
    // Writes the digits of n, the last of them after those of a tenth of n.
    #[tactic(auto, using(crate::proofs::Digits::single_length, crate::proofs::Digits::longer))]
    fn digits(&mut self, n: usize)
        requires { self.old.at + length (decimal n) ≤ length self.old.out.now }
        ensures { Appends self.old (decimal n) self.new }
    {
        if n < 10 {
            return self.byte(digit(n));
        }
        self.digits(n / 10);
        self.byte(digit(n % 10));
    }

    // Writes n, which has at most 20 digits.
    #[tactic(auto, using(crate::proofs::Digits::twenty))]
    pub fn decimal(&mut self, n: usize)
        requires { self.old.at + 20 ≤ length self.old.out.now }
        ensures appends { Appends self.old (decimal n) self.new }
        ensures upper_bound { self.new.at ≤ self.old.at + 20 }
    {
        self.digits(n);
    }

    // Writes a word and a number.
    pub fn named(&mut self, word: &[u8], n: usize)
        requires { self.old.at + length word.now + 20 ≤ length self.old.out.now }
        ensures appends { Appends self.old (word.now ++ decimal n) self.new }
        ensures upper_bound { self.new.at ≤ self.old.at + length word.now + 20 }
    {
        self.text(word);
        self.decimal(n);
    }
}
