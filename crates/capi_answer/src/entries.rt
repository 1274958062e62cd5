// The findings of the calls as entries of the lent `answer`, in their order.
ghost use Rattle.std.specs.Prelude.{◌≡◌};
ghost use Rattle.run_state.specs.Side.{side_number};
ghost use Rattle.capi_answer.specs.Entry.{is_negative, magnitude, alike_of, accepted_of, ran_of, sizes_of, tally_of, judged_of};

use crate::Told;
use bitvec::Whole;
use proof_check::Tally;
use report_judgement::Finding;
use routine::Accepted;
use routine_faults::steps::accesses_of;
use routine_header::first_command;
use run_state::{Side, Stop};
use translation_meaning::Size;

// The number of a side, by the table that the definition is.
fn side_number(side: Side) -> u64
    ensures { result ≡ side_number side }
{
    match side {
        Side::Below => 0,
        Side::Above => 1,
    }
}

fn is_negative(n: Whole) -> u64
    ensures { result ≡ is_negative n }
{
    match n {
        Whole::Natural(_) => 0,
        Whole::Negative(_) => 1,
    }
}

fn magnitude_of(n: Whole) -> u64
    ensures { result ≡ magnitude n }
{
    match n {
        Whole::Natural(m) | Whole::Negative(m) => u64::from(m),
    }
}

// Whether two reports are alike.
impl Told for bool {
    ghost entries = { alike_of };

    fn tell(self, answer: &mut [u64]) {
        answer[0] = u64::from(self);
    }
}

// The counts of a routine.
impl Told for Accepted {
    ghost entries = { accepted_of };

    fn tell(self, answer: &mut [u64]) {
        answer[0] = u64::from(self.header.variables);
        answer[1] = u64::from(self.header.parameters);
        answer[2] = u64::from(self.header.arrays);
        answer[3] = u64::from(self.counts.ifs);
        answer[4] = u64::from(accesses_of(self.counts));
        answer[5] = u64::from(self.counts.reads);
        answer[6] = first_command(self.header) as u64;
    }
}

// Whether an access stopped a run, and which.
impl Told for Option<Stop> {
    ghost entries = { ran_of };

    fn tell(self, answer: &mut [u64]) {
        match self {
            None => answer[0] = 0,
            Some(stop) => {
                answer[0] = 1;
                answer[1] = u64::from(stop.access);
                answer[2] = side_number(stop.side);
                answer[3] = is_negative(stop.index);
                answer[4] = magnitude_of(stop.index);
            }
        }
    }
}

// The counts of a translation.
impl Told for Size {
    ghost entries = { sizes_of };

    fn tell(self, answer: &mut [u64]) {
        answer[0] = u64::from(self.clauses);
        answer[1] = u64::from(self.words);
        answer[2] = u64::from(self.variables);
    }
}

// The counts of a proof.
impl Told for Tally {
    ghost entries = { tally_of };

    fn tell(self, answer: &mut [u64]) {
        answer[0] = self.steps as u64;
        answer[1] = self.hints as u64;
    }
}

// What an accepted report says.
impl Told for Finding {
    ghost entries = { judged_of };

    fn tell(self, answer: &mut [u64]) {
        answer[0] = u64::from(self.access);
        answer[1] = u64::from(self.side);
        answer[2] = u64::from(self.array);
        answer[3] = u64::from(self.size);
        answer[4] = is_negative(self.index);
        answer[5] = magnitude_of(self.index);
        answer[6] = self.steps as u64;
        answer[7] = self.hints as u64;
    }
}
