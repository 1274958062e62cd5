// The whole translation of a claim, written into the buffers where they hold it, or only counted.
ghost use Rattle.routine.specs.Decode.{IsRoutine};
ghost use Rattle.cnf.specs.Inner.Append.{Appended, CountRoom};
ghost use Rattle.translation_meaning.specs.Translation.{last_clauses};
ghost use Rattle.translation_walk.specs.Inner.Walker.{ClaimEncoded};
ghost use Rattle.translation_space.specs.Inner.Counted.{ClaimCounted};

use cnf::{Store, append_clause};
use lead::Target;
use netlist::{Net, Node, emit, opposite};
use routine_command::Mark;
use routine_header::{Header, first_command};
use translation_meaning::Size;
use translation_state::literals::places_in;
use translation_state::{Claim, MOST_PLACES};
use translation_walk::beginning::{begin_variables, first_walk};
use translation_walk::walks::encode_arm;

// The last two clauses: {arrival}, {-side literal}.
#[tactic(auto, using(cnf::proofs::Appending::appended_none, cnf::proofs::Appending::appended_then))]
fn append_claim(words: &mut [u32], starts: &mut [u32], s: Store, claim: Option<Claim>) -> Store
    requires { CountRoom s 2 4 }
    ensures { Appended words.old starts.old s (last_clauses claim) words.new starts.new result }
{
    match claim {
        None => s,
        Some(made) => {
            let other = opposite(made.side);
            let s1 = append_clause(words, starts, s, [made.arrival]);
            append_clause(words, starts, s1, [other])
        }
    }
}

// Variable 1, the bits of all variables, the commands as far as the named access, and the last two clauses. Places where no bit is hold literal 3.
pub fn make(
    words: &mut [u32],
    starts: &mut [u32],
    bytes: &[u8],
    h: Header,
    t: Target,
    decisions: &[u8],
) -> Size
    requires { IsRoutine bytes.now h }
    ensures { ClaimEncoded bytes.now h t decisions.now words.old starts.old words.new starts.new result }
{
    let empty = Net {
        store: Store {
            words: 0,
            clauses: 0,
        },
        next: 1,
    };
    let n = emit(words, starts, empty, Node::One);
    let mut lits = [3u32; MOST_PLACES];
    let own = &mut lits[..places_in(h)];
    let net = begin_variables(own, n, bytes, h);
    let p = first_walk(first_command(h), net);
    let r = encode_arm(words, starts, own, bytes, h, t, decisions, 0, Mark::End, p);
    let all = append_claim(words, starts, r.net.store, r.reach.claim);
    Size {
        clauses: all.clauses,
        words: all.words,
        variables: r.net.next - 1,
    }
}

// What it takes: nothing is written over empty slices, and all is counted.
pub fn count(routine: &[u8], h: Header, t: Target, decisions: &[u8]) -> Size
    requires { IsRoutine routine.now h }
    ensures { ClaimCounted routine.now h t decisions.now result }
{
    make(&mut [], &mut [], routine, h, t, decisions)
}
