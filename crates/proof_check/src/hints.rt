// A hint of a step: what its clause says, and what follows from it.
ghost use Rattle.std.specs.Prelude.{◌≡◌, ℕ, ◌+◌, ◌/◌, ◌<◌, ◌≤◌, List, length, slice_set};
ghost use Rattle.proof_propagation.specs.Marks.{true_mark};
ghost use Rattle.proof_propagation.specs.declared.Hint.{Hint};
ghost use Rattle.proof_reader.specs.declared.Command.{Command};
ghost use Rattle.proof_check.specs.Lent.{limits_of};
ghost use Rattle.proof_check.specs.Check.{on_hint};
ghost use Rattle.proof_check.specs.State.{down};
ghost use Rattle.proof_check.specs.Inner.Held.{state_of, state_in, Holds, with_hint};
ghost use Rattle.proof_check.specs.Inner.Rows.{said_by};
ghost use Rattle.proof_check.specs.declared.Phase.{Phase};

use crate::phases::{is_conflicted, is_going};
use crate::{Phase, Progress, Refusal};
use proof_propagation::Hint;
use proof_propagation::marks::true_mark;
use proof_propagation::stored::ClauseStore;
use proof_reader::Command;

// What the clause of a hint says where the step is open and the clause is there; any other command says neither.
pub fn said_by(
    store: ClauseStore,
    starts: &[u32],
    marks: &[u8],
    p: Progress,
    command: Command,
) -> Hint
    requires { Holds store starts.now (length marks.now) p }
    ensures { result ≡ said_by (state_in store.entry starts.now marks.now p) command }
{
    match command {
        Command::Hint(h) => {
            let phase = p.phase;
            if !is_going(phase) {
                return Hint::Neither;
            }
            if is_conflicted(phase) {
                return Hint::Neither;
            }
            let i = h as usize;
            if p.count <= i {
                return Hint::Neither;
            }
            store.scan(starts, marks, p.given, i)
        }
        Command::Literal(_) => Hint::Neither,
        Command::Close => Hint::Neither,
        Command::End => Hint::Neither,
        Command::Unreadable => Hint::Neither,
    }
}

// After a hint.
pub fn with_hint(p: Progress, phase: Phase, decided: usize) -> Progress
    requires { (p.at ≤ 16777216) × (p.hints ≤ p.at) }
    ensures { result ≡ with_hint p phase decided }
{
    Progress {
        at: p.at + 5,
        decided,
        phase,
        hints: p.hints + 1,
        ..p
    }
}

// Keeps a literal that became true, where the trail has room for it.
pub fn note(trail: &mut [u32], decided: usize, l: u32)
    ensures { trail.new ≡ slice_set trail.old decided l }
{
    if decided < trail.len() {
        trail[decided] = l;
    }
}

// A literal becomes true.
pub fn decide(marks: &mut [u8], trail: &mut [u32], p: Progress, l: u32) -> Progress
    requires { (l / 2 < length marks.old) × (p.at ≤ 16777216) × (p.hints ≤ p.at) × (p.decided ≤ p.at) }
    ensures marks_after { marks.new ≡ slice_set marks.old (l / 2) (true_mark l) }
    ensures trail_after { trail.new ≡ slice_set trail.old p.decided l }
    ensures value { result ≡ with_hint p Phase.Hints (p.decided + 1) }
{
    let v = (l / 2) as usize;
    marks[v] = true_mark(l);
    let decided = p.decided;
    note(trail, decided, l);
    with_hint(p, Phase::Hints, decided + 1)
}

// Why a hint is turned down whose clause is neither a conflict nor makes a literal true, or is not there, or may not be cited.
pub fn refuse_hint(base: usize, p: Progress, h: u32) -> Refusal
    requires { (p.at ≤ 16777216) × (base ≤ 16777216) }
    ensures { (w s m r : List ℕ) → said_by (state_of w s m r p) (Command.Hint h) ≡ Hint.Neither → down result ≡ on_hint (limits_of base w s m) (state_of w s m r p) h }
{
    let place = base + p.at;
    let phase = p.phase;
    if !is_going(phase) {
        return Refusal::OutOfPlace(place);
    }
    if p.count <= h as usize {
        return Refusal::NoClause(place);
    }
    if is_conflicted(phase) {
        return Refusal::AfterConflict(place);
    }
    Refusal::Neither(place)
}
