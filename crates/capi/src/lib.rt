// The C interface, and nothing else: each call hands its arguments to the layer that does the work and writes what it answered into `answer`.
#![tactic(auto)]

ghost use Rattle.std.specs.Prelude.{[], ◌∷◌};
ghost use Rattle.lead.specs.Lead.{target_of};
ghost use Rattle.translation_meaning.specs.Faithful.{Demand2};
ghost use Rattle.capi_answer.specs.Left.{Leaves, check_leaves, run_leaves, translate_leaves, space_leaves, prove_leaves, judge_leaves, Finds, alike_leaves};

use capi_answer::{ANSWER_ENTRIES, fill, fill_prove};

// Checks a routine.
#[unsafe(no_mangle)]
pub extern "C" fn pellet_check(routine: &[u8], answer: &mut [u64]) -> u8
    ensures { Leaves (check_leaves routine.now answer.old) [] answer.new result }
{
    if answer.len() < ANSWER_ENTRIES {
        return 255;
    }
    fill(routine::check(routine), answer)
}

// Runs a routine on an input list.
#[unsafe(no_mangle)]
pub extern "C" fn pellet_run(
    routine: &[u8],
    inputs: &[u32],
    values: &mut [u32],
    trail: &mut [u8],
    answer: &mut [u64],
) -> u8
    ensures { Leaves (run_leaves routine.now inputs.now values.old trail.old answer.old) (values.new ∷ trail.new ∷ []) answer.new result }
{
    if answer.len() < ANSWER_ENTRIES {
        return 255;
    }
    fill(run::run(routine, inputs, values, trail), answer)
}

// Translates a claim on a routine into clauses.
#[unsafe(no_mangle)]
pub extern "C" fn pellet_translate(
    routine: &[u8],
    access: u8,
    side: u8,
    decisions: &[u8],
    words: &mut [u32],
    starts: &mut [u32],
    answer: &mut [u64],
) -> u8
    ensures leaves { Leaves (translate_leaves routine.now access side decisions.now words.old starts.old answer.old) (words.new ∷ starts.new ∷ []) answer.new result }
    ensures demand2 { Demand2 routine.now (target_of access side) decisions.now }
{
    if answer.len() < ANSWER_ENTRIES {
        return 255;
    }
    fill(
        translation::translate(routine, access, side, decisions, words, starts),
        answer,
    )
}

// Tells the space that such a translation takes.
#[unsafe(no_mangle)]
pub extern "C" fn pellet_space(
    routine: &[u8],
    access: u8,
    side: u8,
    decisions: &[u8],
    answer: &mut [u64],
) -> u8
    ensures { Leaves (space_leaves routine.now access side decisions.now answer.old) [] answer.new result }
{
    if answer.len() < ANSWER_ENTRIES {
        return 255;
    }
    fill(
        translation_space::space(routine, access, side, decisions),
        answer,
    )
}

// Checks a proof against clauses that stand in words and starts.
#[unsafe(no_mangle)]
pub extern "C" fn pellet_prove(
    report: &[u8],
    from: usize,
    clauses: u32,
    variables: u32,
    words: &[u32],
    starts: &mut [u32],
    marks: &mut [u8],
    answer: &mut [u64],
) -> u8
    ensures { Leaves (prove_leaves report.now from clauses variables words.now starts.old marks.old answer.old) (starts.new ∷ marks.new ∷ []) answer.new result }
{
    if answer.len() < ANSWER_ENTRIES {
        return 255;
    }
    fill_prove(
        proof::prove(report, from, clauses, variables, words, starts, marks),
        answer,
    )
}

// Judges a report on a routine. Where it returns 0, demand 3 holds of what the answer tells.
#[unsafe(no_mangle)]
pub extern "C" fn pellet_judge(
    routine: &[u8],
    report: &[u8],
    words: &mut [u32],
    starts: &mut [u32],
    marks: &mut [u8],
    values: &mut [u32],
    trail: &mut [u8],
    answer: &mut [u64],
) -> u8
    ensures leaves { Leaves (judge_leaves routine.now report.now words.old starts.old marks.old values.old trail.old answer.old) (words.new ∷ starts.new ∷ marks.new ∷ values.new ∷ trail.new ∷ []) answer.new result }
    ensures finds { Finds routine.now report.now answer.old answer.new result }
{
    // Judging zeroes the buffers, and they are zeroed on every return: so it comes before the test of the answer's length.
    let judged = report::judge(routine, report, words, starts, marks, values, trail);
    if answer.len() < ANSWER_ENTRIES {
        return 255;
    }
    fill(judged, answer)
}

// Whether two reports on one routine are alike.
#[unsafe(no_mangle)]
pub extern "C" fn pellet_alike(
    routine: &[u8],
    first: &[u8],
    second: &[u8],
    answer: &mut [u64],
) -> u8
    ensures { Leaves (alike_leaves routine.now first.now second.now answer.old) [] answer.new result }
{
    if answer.len() < ANSWER_ENTRIES {
        return 255;
    }
    fill(report::alike(routine, first, second), answer)
}
