// Following a run, as far as a named access or to its end. Following an arm and following an if call each other, and the arm that is not taken is passed.
ghost use Rattle.std.specs.Prelude.{◌≡◌, false, cond, is_some, ◌<◌, ◌≤◌};
ghost use Rattle.bitvec.specs.Signed.{signed};
ghost use Rattle.bitvec.specs.Relation.{relates};
ghost use Rattle.routine_header.specs.Header.{width};
ghost use Rattle.routine_command.specs.Command.{touches};
ghost use Rattle.routine_faults.specs.Step.{counts_after_if, accesses};
ghost use Rattle.routine_faults.specs.Inner.Sound.{Sound, SoundIf, Fine};
ghost use Rattle.routine.specs.Decode.{IsRoutine, commands_in};
ghost use Rattle.routine.specs.Inner.Stands.{SomeArm, SomeIf};
ghost use Rattle.run_state.specs.Run.{run_of};
ghost use Rattle.run_state.specs.Course.{keeps_to, is_goal, course_to};
ghost use Rattle.run_state.specs.Inner.Walker.{settled, is_done, way_at, reached_at, reached_by, FollowsArm, FollowsIf};
ghost use Rattle.run_state.specs.declared.Course.{Course};

use crate::moves::{operands_of, value_after};
use crate::states::lies_at;
use crate::{Course, Goal, Landing, Reached, State, Way};
use bitvec::{relation, signed};
use routine::walks::pass_arm;
use routine_command::commands::{command_at, simple_size, touched};
use routine_command::{Command, Condition, Mark, Simple, Touch};
use routine_faults::Counts;
use routine_faults::steps::{accesses_of, counts_after, counts_after_if, no_counts};
use routine_faults::words::given_of;
use routine_header::{Header, first_command, size_of_array, width_of};
use slices::byte_at;

// Whether an arm taken at the if of this number is by the decisions, or the if does not matter on the way to the goal. An arm is its number, as
// decisions are bytes of a lead.
fn keeps_to(ds: &[u8], goal: Goal, number: u8, arm: u8) -> bool
    ensures { result ≡ keeps_to ds.now goal number arm }
{
    match goal {
        Goal::End => true,
        Goal::Access { before, .. } => {
            if before <= number {
                return true;
            }
            let decision = byte_at(ds, usize::from(number));
            decision == 2 || decision == arm
        }
    }
}

// Whether the access before which the counts are k is the goal.
fn is_goal(goal: Goal, k: Counts) -> bool
    ensures { result ≡ is_goal goal (accesses k) }
{
    match goal {
        Goal::End => false,
        Goal::Access { number, .. } => accesses_of(k) == u32::from(number),
    }
}

// What the access before which the counts are k is to the walk, its index variable i having the value x.
fn reached_at(bytes: &[u8], h: Header, goal: Goal, k: Counts, array: u8, i: u8, x: u32) -> Reached
    requires { (1 ≤ width bytes.now i) × (width bytes.now i ≤ 32) }
    ensures { result ≡ reached_at bytes.now h goal k array (signed (width bytes.now i) x) }
{
    let index = signed::reading(width_of(bytes, i), x);
    if is_goal(goal, k) {
        return Reached::Arrives(Landing { array, index });
    }
    match lies_at(size_of_array(bytes, h, array), index) {
        None => Reached::Goes,
        Some(side) => Reached::Stops { index, side },
    }
}

// What a command that is no if is to the walk, its index variable having the value x.
#[tactic(auto, using(crate::proofs::Touching::indexed))]
fn reached(bytes: &[u8], h: Header, goal: Goal, c: Simple, k: Counts, x: u32) -> Reached
    requires { Sound bytes.now h c × Fine bytes.now h }
    ensures { result ≡ reached_by bytes.now h goal k x (touches c) }
{
    match touched(c) {
        Touch::Nothing => Reached::Goes,
        Touch::Reads { d: _, array, i } => reached_at(bytes, h, goal, k, array, i, x),
        Touch::Writes { array, i } => reached_at(bytes, h, goal, k, array, i, x),
    }
}

// The arm that an if takes, its variables having the values a and b.
fn arm_at(bytes: &[u8], h: Header, c: Condition, a: u32, b: u32) -> u8
    requires { SoundIf bytes.now h c × Fine bytes.now h }
    ensures { result ≡ cond (relates c.relation (width bytes.now c.s) a b) 0 1 }
{
    if relation::relates(c.relation, width_of(bytes, c.s), a, b) {
        0
    } else {
        1
    }
}

impl State {
    // Follows the arm from an offset on, where the counts are `before`, inside `depth` ifs and ended by the mark `close`. The value that a command
    // gives to a variable is stored in place: a state that is handed to a method and back is copied, for every command.
    #[cycle(follow_arm_follow_if)]
    #[tactic(auto, using(crate::proofs::Following::begun, crate::proofs::Following::room_here, crate::proofs::Reaching::arrives))]
    fn follow_arm(
        mut self,
        bytes: &[u8],
        ins: &[u32],
        ds: &[u8],
        goal: Goal,
        h: Header,
        depth: u8,
        close: Mark,
        from: usize,
        before: Counts,
    ) -> Way
        requires { SomeArm bytes.now h depth close from before × Fine bytes.now h × (is_some self.stop ≡ false) }
        ensures { FollowsArm bytes.now ins.now ds.now goal h depth close (way_at from before self Course.Passing) result }
    {
        let mut at = from;
        let mut k = before;
        loop {
            match command_at(bytes, at) {
                Command::Missing => return way(at, k, self, Course::Passing),
                Command::Close(_) => return way(at + 1, k, self, Course::Passing),
                Command::If(c) => {
                    let r = self.follow_if(bytes, ins, ds, goal, h, depth, c, at, k);
                    if is_done(r) {
                        return r;
                    }
                    at = r.next;
                    k = r.counts;
                    self = r.state;
                }
                Command::Simple(c) => {
                    let o = operands_of(c);
                    let i = o.i as usize;
                    match reached(bytes, h, goal, c, k, self.values[i]) {
                        Reached::Goes => {
                            let a = o.a as usize;
                            let b = o.b as usize;
                            let d = o.d as usize;
                            let x = self.values[a];
                            let y = self.values[b];
                            self.values[d] = value_after(bytes, h, ins, c, k, x, y);
                            at += simple_size(c);
                            k = counts_after(c, k);
                        }
                        Reached::Stops { index, side } => {
                            let stop = self.stopped(accesses_of(k), index, side);
                            return way(at, k, stop, Course::Passing);
                        }
                        Reached::Arrives(landing) => {
                            return way(at, k, self, Course::Arrived(landing));
                        }
                    }
                }
            }
        }
    }

    // Follows the if at `at`, where the counts are k. Its number is the count of the ifs before it.
    #[cycle(follow_arm_follow_if)]
    #[tactic(auto, using(crate::proofs::Parting::arm_is, crate::proofs::Parting::first_done))]
    fn follow_if(
        self,
        bytes: &[u8],
        ins: &[u32],
        ds: &[u8],
        goal: Goal,
        h: Header,
        depth: u8,
        c: Condition,
        at: usize,
        k: Counts,
    ) -> Way
        requires { SomeIf bytes.now h depth at (counts_after_if k) × (k.ifs < 32) × SoundIf bytes.now h c × Fine bytes.now h × (is_some self.stop ≡ false) }
        ensures { FollowsIf bytes.now ins.now ds.now goal h depth c (way_at at k self Course.Passing) result }
    {
        let inside = counts_after_if(k);
        let a = c.s as usize;
        let b = c.t as usize;
        let arm = arm_at(bytes, h, c, self.values[a], self.values[b]);
        if !keeps_to(ds, goal, k.ifs, arm) {
            return way(at, k, self, Course::Astray(k.ifs));
        }
        if arm == 0 {
            let first = self.with_arm(k.ifs, 0);
            let r = first.follow_arm(
                bytes,
                ins,
                ds,
                goal,
                h,
                depth + 1,
                Mark::Else,
                at + 4,
                inside,
            );
            if is_done(r) {
                return r;
            }
            let state = r.state;
            let between = r.counts;
            let past = pass_arm(bytes, h, depth + 1, Mark::EndIf, r.next, between);
            let counts = past.counts;
            way(past.next, counts, state, Course::Passing)
        } else {
            let past = pass_arm(bytes, h, depth + 1, Mark::Else, at + 4, inside);
            let between = past.counts;
            let second = self.with_arm(k.ifs, 1);
            second.follow_arm(
                bytes,
                ins,
                ds,
                goal,
                h,
                depth + 1,
                Mark::EndIf,
                past.next,
                between,
            )
        }
    }
}

// The walk at an offset, with the counts there.
fn way(next: usize, counts: Counts, state: State, course: Course) -> Way
    ensures { result ≡ way_at next counts state course }
{
    Way {
        next,
        counts,
        state,
        course,
    }
}

// Whether nothing of the rest matters to the walk: its course is settled, or the run stopped.
fn is_done(w: Way) -> bool
    ensures { result ≡ is_done w }
{
    match w.course {
        Course::Passing => w.state.stop.is_some(),
        Course::Astray(_) | Course::Arrived(_) => true,
    }
}

// Follows the run of a routine on an input list as far as the goal. The state is that of the whole run only where the course is not settled.
#[tactic(auto, using(crate::proofs::Wholes::followed_whole))]
pub fn follow(routine: &[u8], ins: &[u32], ds: &[u8], goal: Goal, h: Header) -> Way
    requires { IsRoutine routine.now h }
    ensures course_value { result.course ≡ course_to ds.now goal (run_of routine.now ins.now h (commands_in routine.now)).events }
    ensures state_value { settled result.course ≡ false → result.state ≡ (run_of routine.now ins.now h (commands_in routine.now)).state }
{
    let nothing_yet = no_counts();
    let begun = State::initial(ins, given_of(h));
    let first = first_command(h);
    begun.follow_arm(routine, ins, ds, goal, h, 0, Mark::End, first, nothing_yet)
}
