// The clauses that a check has, where they stand, and what is done with one by its number.
ghost use Rattle.std.specs.Prelude.{◌≡◌, ◌^◌, ◌<◌, ◌≤◌, length};
ghost use Rattle.proof_reader.specs.Command.{command_at};
ghost use Rattle.proof_reader.specs.Inner.Literals.{run_at};
ghost use Rattle.proof_reader.specs.Inner.Runs.{Runs};
ghost use Rattle.proof_propagation.specs.Hint.{hint_of};
ghost use Rattle.proof_propagation.specs.Inner.Clear.{clear};
ghost use Rattle.proof_propagation.specs.Inner.Standing.{Stands, InPart};
ghost use Rattle.proof_propagation.specs.Inner.Store.{proof_of, clause_in};

use crate::Hint;
use crate::clears::clear_literals;
use crate::literals::Run;
use crate::scans::scan;
use proof_reader::Command;
use proof_reader::joined::next_command;

// Clauses that were given stand in the words, and those of steps in the proof, which comes in two slices: offsets go through both, and commands are read from the second.
// Where a clause begins is its number's entry of the starts. A close writes one, so they are passed beside the store.
#[derive(Clone, Copy)]
pub struct ClauseStore<'a> {
    pub words: &'a [u32],
    pub closed: &'a [u8],
    pub proof: &'a [u8],
}

impl<'a> ClauseStore<'a> {
    // How many bytes the whole proof has.
    pub fn proof_len(self) -> usize
        ensures { result ≡ length (proof_of self.entry) }
    {
        self.closed.len() + self.proof.len()
    }

    // The command at an offset in the second slice, or past its end.
    pub fn command(self, at: usize) -> Command
        requires { length self.closed.now ≤ at }
        ensures { result ≡ command_at (proof_of self.entry) at }
    {
        next_command(self.closed, self.proof, at)
    }

    // The literals from an offset of the proof, which lie in one of its slices.
    pub fn run(self, start: usize) -> Run<'a>
        requires runs { Runs (proof_of self) start }
        requires in_part { start < length self.closed.now → Runs self.closed.now start }
        ensures readable { Runs result.proof.now result.at × (length (run_at result.proof.now result.at) < 2 ^ 62) }
        ensures same { run_at result.proof.now result.at ≡ run_at (proof_of self.entry) start }
    {
        if start < self.closed.len() {
            Run {
                proof: self.closed,
                at: start,
            }
        } else {
            Run {
                proof: self.proof,
                at: start - self.closed.len(),
            }
        }
    }

    // What the clause of a number says under the marks.
    pub fn scan(self, starts: &[u32], marks: &[u8], given: usize, number: usize) -> Hint
        requires stands { Stands self.words.now starts.now (proof_of self) given (length marks.now) number }
        requires in_part { InPart self.closed.now starts.now given number }
        ensures { result ≡ hint_of marks.now (clause_in self.entry starts.now given number) }
    {
        let start = starts[number] as usize;
        if number < given {
            let from = start + 1;
            let to = from + self.words[start] as usize;
            scan(&self.words[from..to], marks)
        } else {
            scan(self.run(start), marks)
        }
    }

    // The variables of the clause of a number are undecided again.
    pub fn clear(self, starts: &[u32], marks: &mut [u8], given: usize, number: usize)
        requires stands { Stands self.words.now starts.now (proof_of self) given (length marks.old) number }
        requires in_part { InPart self.closed.now starts.now given number }
        ensures { marks.new ≡ clear marks.old (clause_in self.entry starts.now given number) }
    {
        let start = starts[number] as usize;
        if number < given {
            let from = start + 1;
            let to = from + self.words[start] as usize;
            clear_literals(&self.words[from..to], marks);
        } else {
            clear_literals(self.run(start), marks);
        }
    }
}
