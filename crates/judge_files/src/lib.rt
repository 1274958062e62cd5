// What is printed of the files that a program is given. It is proved for whatever bytes the files give; that these are the files' bytes is only tested.
#![tactic(auto)]

mod answer;
pub mod arguments;
mod reading;

ghost use Rattle.std.specs.Prelude.{◌≤◌, length};
ghost use Rattle.io.specs.Counts.{IsPrefixLen};
ghost use Rattle.judge_files.specs.Printed.{Says};

use answer::answer;
use reading::read_file;
use std::rt::Files;

// Writes what is printed of the report in one file on the routine in another at the beginning of `out`, and returns its length. One byte more than a routine and
// a report have is read, so that a longer file is told and not cut short. Nothing is allocated: both stand in arrays.
pub fn judge_files<R: Files>(
    rt: &R,
    routine_name: &[u8],
    report_name: &[u8],
    out: &mut [u8],
) -> usize
    requires { 200 ≤ length out.old }
    ensures says { Says out.old out.new result }
    ensures prefix_len { IsPrefixLen result out.new }
{
    let mut first = [0u8; 4097];
    let routine = read_file(rt, routine_name, &mut first);
    let mut second = [0u8; 65537];
    let report = read_file(rt, report_name, &mut second);
    answer(routine, &first, report, &second, out)
}
