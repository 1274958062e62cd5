// The literals of a clause, read one after another wherever it stands.
ghost use Rattle.std.specs.Prelude.{◌≡◌, ℕ, ◌^◌, ◌<◌, List, [], ◌∷◌, length, IfNone, IfSome};
ghost use Rattle.proof_reader.specs.Inner.Literals.{run_at};
ghost use Rattle.proof_reader.specs.Inner.Runs.{Runs};

use slices::whole_word_at;

// Literals that are read from the first on.
pub trait Literals: Copy {
    // Those that are left.
    ghost left: { Self → List ℕ };

    // They can be read.
    ghost readable: { Self → Type 0 };

    // The first of them, which is left no more.
    fn next(&mut self) -> Option<u32>
        requires { readable self.old }
        ensures none { IfNone result (left self.old ≡ []) }
        ensures some { IfSome result (λ l. (left self.old ≡ l ∷ left self.new) × readable self.new) };

    // They can be counted.
    ghost few: { (s : Self) → readable s → length (left s) < 2 ^ 62 };
}

// Those in a part of the words.
impl<'a> Literals for &'a [u32] {
    ghost left = { λ s. s.now };

    ghost readable = { λ s. length s.now < 2 ^ 62 };

    fn next(&mut self) -> Option<u32> {
        let (first, rest) = self.split_first()?;
        *self = rest;
        Some(*first)
    }

    ghost few = { λ s h. h };
}

// Those in the proof, from an offset up to the first byte that is not 1.
#[derive(Clone, Copy)]
pub struct Run<'a> {
    pub proof: &'a [u8],
    pub at: usize,
}

impl<'a> Literals for Run<'a> {
    ghost left = { λ s. run_at s.proof.now s.at };

    ghost readable = { λ s. Runs s.proof.now s.at × (length (run_at s.proof.now s.at) < 2 ^ 62) };

    fn next(&mut self) -> Option<u32> {
        let at = self.at;
        if self.proof[at] != 1 {
            return None;
        }
        self.at = at + 5;
        Some(whole_word_at(self.proof, at + 1))
    }

    ghost few = { λ s h. h.1 };
}
