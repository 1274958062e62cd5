// Walking over the commands. An arm is a list of commands, and a command may be an if with two arms: the two walks call each other.
ghost use Rattle.std.specs.Prelude.{◌≡◌, ◌+◌, ◌<◌, ◌≤◌, length};
ghost use Rattle.routine.specs.Inner.Known.{checked_commands};
ghost use Rattle.routine.specs.Inner.Walk.{walk_arm, mark_of, walk_by, walk_if};
ghost use Rattle.routine.specs.Inner.Stands.{SomeArm};
ghost use Rattle.routine.specs.Inner.Passes.{Passes};

use crate::{Accepted, Passed, Refusal};
use routine_command::commands::{command_at, opcode_of, simple_size};
use routine_command::{Command, Mark, Opcode};
use routine_faults::steps::{counts_after, counts_after_if, if_fault, no_counts, simple_fault};
use routine_faults::{Counts, Fault};
use routine_header::{Header, first_command};

// Walks over the arm from `from` on, inside `depth` ifs, that the mark `close` ends, after the counts `before`: where it ends and the counts there, or
// the fault of a command. No index is counted: a command's size tells where the next one stands.
#[cycle(walk_marked_walk_if)]
fn walk_marked(
    bytes: &[u8],
    h: Header,
    depth: u8,
    close: Mark,
    from: usize,
    before: Counts,
) -> Result<Passed, Refusal>
    ensures { result ≡ walk_arm bytes.now h depth close from before }
{
    let mut at = from;
    let mut k = before;
    loop {
        match command_at(bytes, at) {
            Command::Missing => return Err(Refusal::Command(Fault::Unknown, at)),
            Command::Close(mark) => {
                if mark != close {
                    return Err(Refusal::Command(Fault::Misplaced, at));
                }
                return Ok(Passed {
                    next: at + 1,
                    counts: k,
                });
            }
            Command::If(c) => {
                if_fault(bytes, h, depth, c, k).map_err(|fault| Refusal::Command(fault, at))?;
                let passed = walk_if(bytes, h, depth, at, counts_after_if(k))?;
                at = passed.next;
                k = passed.counts;
            }
            Command::Simple(c) => {
                simple_fault(bytes, h, c, k).map_err(|fault| Refusal::Command(fault, at))?;
                at += simple_size(c);
                k = counts_after(c, k);
            }
        }
    }
}

// Walks over the two arms of the if at `at`, up to its end.
#[cycle(walk_marked_walk_if)]
fn walk_if(bytes: &[u8], h: Header, depth: u8, at: usize, k: Counts) -> Result<Passed, Refusal>
    requires { (at + 4 ≤ length bytes.now) × (depth < 8) }
    ensures { result ≡ walk_if bytes.now h depth at k }
{
    let first = walk_marked(bytes, h, depth + 1, Mark::Else, at + 4, k)?;
    walk_marked(bytes, h, depth + 1, Mark::EndIf, first.next, first.counts)
}

// The mark that a command byte is, if it is one.
#[tactic(auto, unfolding(crate::specs::Inner::Walk::mark_of))]
fn mark_of(op: u8) -> Option<Mark>
    ensures { result ≡ mark_of op }
{
    match opcode_of(op) {
        Some(Opcode::Close(mark)) => Some(mark),
        _ => None,
    }
}

// The same of the arm that a command byte ends. A byte that is no mark ends none: where the end of the routine would stand, a mark is out of place.
#[tactic(auto, unfolding(crate::specs::Inner::Walk::walk_by))]
pub fn walk_arm(
    bytes: &[u8],
    h: Header,
    depth: u8,
    close: u8,
    from: usize,
    before: Counts,
) -> Result<Passed, Refusal>
    ensures { result ≡ walk_by bytes.now h depth close from before }
{
    match mark_of(close) {
        Some(mark) => walk_marked(bytes, h, depth, mark, from, before),
        None => {
            let passed = walk_marked(bytes, h, depth, Mark::End, from, before)?;
            Err(Refusal::Command(Fault::Misplaced, passed.next.saturating_sub(1)))
        }
    }
}

// Checks the commands of a routine whose header is whole: refusals 3 to 8.
pub fn check_commands(bytes: &[u8], h: Header) -> Result<Accepted, Refusal>
    ensures { result ≡ checked_commands bytes.now h }
{
    let nothing_yet = no_counts();
    let Passed { next, counts } = walk_marked(
        bytes,
        h,
        0,
        Mark::End,
        first_command(h),
        nothing_yet,
    )?;
    if next == bytes.len() {
        Ok(Accepted { header: h, counts })
    } else {
        Err(Refusal::Trailing(next))
    }
}

// Goes past the arm that stands at `at`.
pub fn pass_arm(bytes: &[u8], h: Header, depth: u8, close: Mark, at: usize, k: Counts) -> Passed
    requires { SomeArm bytes.now h depth close at k }
    ensures { Passes bytes.now h depth close at k result }
{
    match walk_marked(bytes, h, depth, close, at, k) {
        Ok(passed) => passed,
        Err(_) => unreachable!(),
    }
}
