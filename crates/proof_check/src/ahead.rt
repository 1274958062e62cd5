// A look at what the next hints name. Where the clauses are more than the caches hold, a hint waits for its clause, and the next one is read only then; looked at
// beforehand, the clauses of many hints are fetched at once.
ghost use Rattle.std.specs.Prelude.{◌≡◌, take};
ghost use Rattle.std.proofs.Math.Seq.{slice};
ghost use Rattle.slices.specs.Bytes.{entry};

use crate::Progress;
use crate::hints::note;
use proof_propagation::stored::ClauseStore;
use proof_reader::{Command, read_command};
use slices::entry_at;

// Fewer words than these are fetched fast enough.
const MANY_WORDS: usize = 8388608;

// The hints that are looked at beforehand. Nothing is allocated, so that their number stands beside the array.
const AHEAD: usize = 32;

// Where the words of clause h stand, if it is one of those that were given. A step's clause stands in the proof, and what its entry tells is no place
// in the words: looked at there, it would fetch what nobody reads.
fn given_start(starts: &[u32], given: usize, h: u32) -> u32
    ensures { result ≡ entry (take given starts.now) h }
{
    let i = h as usize;
    if given <= i {
        return 0;
    }
    entry_at(starts, i)
}

// Where the last look is used up, reads the first word of each given clause among those of the next hints, and returns the offset as far as it looked. What it read matters to
// nothing: the sum goes into the trail's next entry, so that it is indeed read, and what was kept in the trail stays.
pub fn look_ahead(
    store: ClauseStore,
    starts: &[u32],
    trail: &mut [u32],
    p: Progress,
    ahead: usize,
    here: usize,
) -> usize
    ensures { slice 0 p.decided trail.new ≡ slice 0 p.decided trail.old }
{
    if here < ahead || store.words.len() < MANY_WORDS {
        return ahead;
    }
    let mut named = [0u32; AHEAD];
    let mut count: usize = 0;
    let mut at = here;
    while count < AHEAD {
        match read_command(store.proof, at) {
            Command::Hint(h) => {
                named[count] = given_start(starts, p.given, h);
                count += 1;
                at += 5;
            }
            Command::Literal(_) => at += 5,
            Command::Close => at += 1,
            Command::End => break,
            Command::Unreadable => break,
        }
    }
    let mut sum: u32 = 0;
    for start in &named[..count] {
        sum = sum.wrapping_add(entry_at(store.words, *start as usize));
    }
    note(trail, p.decided, sum);
    at
}
