// What is printed of a report on a routine, given what reading their files gave.
ghost use Rattle.std.specs.Prelude.{◌≡◌, ◌≤◌, length};
ghost use Rattle.io.specs.Counts.{IsPrefixLen};
ghost use Rattle.report_judgement.specs.Judging.{judgement};
ghost use Rattle.judge_line.specs.Writes.{Writes};
ghost use Rattle.judge_files.specs.Inner.Read.{Within, file_of};
ghost use Rattle.judge_files.specs.Printed.{readable, lent, printed};

use judge_line::text::write_text;
use judge_line::write_line;
use report::judge;
use report_judgement::{Finding, Refusal};

// Judges with buffers of its own.
fn judge_lent(routine: &[u8], report: &[u8]) -> Result<Finding, Refusal>
    ensures { result ≡ judgement routine.now report.now lent }
{
    let mut words = [0u32; 16384];
    let mut starts = [0u32; 16384];
    let mut marks = [0u8; 16384];
    let mut values = [0u32; 32];
    let mut trail = [0u8; 32];
    judge(
        routine,
        report,
        &mut words,
        &mut starts,
        &mut marks,
        &mut values,
        &mut trail,
    )
}

// Writes what is printed of bytes that were read at the beginning of `out`, and returns its length.
fn answer_bytes(routine: &[u8], report: &[u8], out: &mut [u8]) -> usize
    requires { 200 ≤ length out.old }
    ensures writes { Writes out.old 0 (printed (readable routine.now) (readable report.now)) out.new result }
    ensures prefix_len { IsPrefixLen result out.new }
{
    if report.len() > 65536 {
        return write_text(b"too long\n", out, 0);
    }
    write_line(judge_lent(routine, report), out)
}

// The same of two files, as far as they were read: the routine's into `first`, the report's into `second`.
pub fn answer(
    routine: Option<usize>,
    first: &[u8],
    report: Option<usize>,
    second: &[u8],
    out: &mut [u8],
) -> usize
    requires within { Within routine first.now }
    requires within_2 { Within report second.now }
    requires in_bounds { 200 ≤ length out.old }
    ensures writes { Writes out.old 0 (printed (file_of routine first.now) (file_of report second.now)) out.new result }
    ensures prefix_len { IsPrefixLen result out.new }
{
    let Some(n) = routine else {
        return write_text(b"cannot read routine\n", out, 0);
    };
    let Some(m) = report else {
        return write_text(b"cannot read report\n", out, 0);
    };
    answer_bytes(&first[..n], &second[..m], out)
}
