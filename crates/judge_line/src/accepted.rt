// The line of an accepted report, in two parts.
ghost use Rattle.std.specs.Prelude.{◌+◌, ◌≤◌, length};
ghost use Rattle.judge_line.specs.Line.{side_word, signed, claimed, shown};
ghost use Rattle.judge_line.specs.Inner.Appends.{Appends};

use crate::line::Line;
use bitvec::Whole;
use report_judgement::Finding;

impl Line<'_> {
    // Writes the access and the side that are named, and the array that is reached, with its size.
    pub fn claimed(&mut self, finding: Finding)
        requires { self.old.at + 100 ≤ length self.old.out.now }
        ensures appends { Appends self.old (claimed finding) self.new }
        ensures upper_bound { self.new.at ≤ self.old.at + 100 }
    {
        self.named(b"accepted access ", finding.access as usize);
        self.text(b" side ");
        self.side(finding.side);
        self.named(b" array ", finding.array as usize);
        self.named(b" size ", finding.size as usize);
    }

    // Writes a side, by its number, as a finding has it.
    fn side(&mut self, side: u8)
        requires { self.old.at + 5 ≤ length self.old.out.now }
        ensures appends { Appends self.old (side_word side) self.new }
        ensures upper_bound { self.new.at ≤ self.old.at + 5 }
    {
        if side == 0 {
            self.text(b"below");
        } else {
            self.text(b"above");
        }
    }

    // Writes the index and the counts, and ends the line.
    pub fn shown(&mut self, finding: Finding)
        requires { self.old.at + 100 ≤ length self.old.out.now }
        ensures appends { Appends self.old (shown finding) self.new }
        ensures upper_bound { self.new.at ≤ self.old.at + 100 }
    {
        self.text(b" index ");
        self.signed(finding.index);
        self.named(b" steps ", finding.steps);
        self.named(b" hints ", finding.hints);
        self.text(b"\n");
    }

    fn signed(&mut self, n: Whole)
        requires { self.old.at + 21 ≤ length self.old.out.now }
        ensures appends { Appends self.old (signed n) self.new }
        ensures upper_bound { self.new.at ≤ self.old.at + 21 }
    {
        match n {
            Whole::Natural(m) => self.decimal(m as usize),
            Whole::Negative(m) => self.named(b"-", m as usize),
        }
    }
}
