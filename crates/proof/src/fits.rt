// Whether the buffers hold what is asked: clauses one after another, of the variables that there are.
ghost use Rattle.std.specs.Prelude.{◌≡◌, ◌≤◌, length};
ghost use Rattle.std.proofs.Math.Seq.{slice};
ghost use Rattle.proof_check.specs.Check.{of_variable};
ghost use Rattle.proof.specs.Fit.{literals_fit, clause_fits, standing};

// A literal of one of so many variables.
fn of_variable(variables: usize, literal: u32) -> bool
    ensures { result ≡ of_variable variables literal }
{
    2 <= literal && (literal / 2) as usize <= variables
}

// The words from one offset up to another are such literals.
fn literals_fit(words: &[u32], variables: usize, from: usize, to: usize) -> bool
    requires { (from ≤ to) × (to ≤ length words.now) }
    ensures { result ≡ literals_fit variables (slice from to words.now) }
{
    words[from..to].iter().all(|l| of_variable(variables, *l))
}

// The clause of a number stands at an offset.
fn clause_fits(words: &[u32], starts: &[u32], variables: usize, number: usize, at: usize) -> bool
    requires { (at ≤ length words.now) × (length words.now ≤ 16777216) }
    ensures { result ≡ clause_fits words.now starts.now variables number at }
{
    if starts.len() <= number {
        return false;
    }
    if starts[number] as usize != at {
        return false;
    }
    if words.len() <= at {
        return false;
    }
    let to = at + 1 + words[at] as usize;
    if words.len() < to {
        return false;
    }
    literals_fit(words, variables, at + 1, to)
}

// So many clauses stand one after another from the beginning, and where they end.
pub fn stand(words: &[u32], starts: &[u32], variables: usize, count: usize) -> Option<usize>
    requires { length words.now ≤ 16777216 }
    ensures { result ≡ standing words.now starts.now variables count 0 0 }
{
    let mut at = 0;
    for i in 0..count {
        if !clause_fits(words, starts, variables, i, at) {
            return None;
        }
        at += 1 + words[at] as usize;
    }
    Some(at)
}
