// The line that is printed of a judgement, written into a lent buffer.
#![tactic(auto)]

mod accepted;
mod decimal;
mod line;
pub mod text;

ghost use Rattle.std.specs.Prelude.{◌+◌, ◌≤◌, length};
ghost use Rattle.judge_line.specs.Line.{refused, line_of};
ghost use Rattle.judge_line.specs.Inner.Appends.{Appends};
ghost use Rattle.judge_line.specs.Writes.{Writes};

use line::Line;
use refusals::Tabled;
use report_judgement::{Finding, Refusal};

// Writes the line at the beginning of `out`, and returns its length.
pub fn write_line(judged: Result<Finding, Refusal>, out: &mut [u8]) -> usize
    requires { 200 ≤ length out.old }
    ensures writes { Writes out.old 0 (line_of judged) out.new result }
    ensures upper_bound { result ≤ 200 }
{
    let mut line = Line { out, at: 0 };
    line.judged(judged);
    line.at
}

impl Line<'_> {
    // Writes a judgement: an accepted report in two parts, or a refusal.
    fn judged(&mut self, judged: Result<Finding, Refusal>)
        requires { self.old.at + 200 ≤ length self.old.out.now }
        ensures appends { Appends self.old (line_of judged) self.new }
        ensures upper_bound { self.new.at ≤ self.old.at + 200 }
    {
        match judged {
            Ok(finding) => {
                self.claimed(finding);
                self.shown(finding);
            }
            Err(refusal) => self.refused(refusal),
        }
    }

    // Writes a refusal's number and place.
    fn refused(&mut self, refusal: Refusal)
        requires { self.old.at + 100 ≤ length self.old.out.now }
        ensures appends { Appends self.old (refused refusal) self.new }
        ensures upper_bound { self.new.at ≤ self.old.at + 100 }
    {
        let row = refusal.row();
        self.named(b"refused ", row.number as usize);
        self.named(b" place ", row.place);
        self.text(b"\n");
    }
}
