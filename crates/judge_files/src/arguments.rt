// Judging the files that the program's arguments name.
ghost use Rattle.std.specs.Prelude.{◌≤◌, length};
ghost use Rattle.io.specs.Counts.{IsPrefixLen};
ghost use Rattle.judge_files.specs.Printed.{Says};

use crate::judge_files;
use std::env::FillError;
use std::rt::{Env, Files};

// Of two arguments the first names the routine's file and the second the report's; any other number of them counts as none, and then the files are routine.bin and
// report.bin of the working folder. Writes what is to be printed at the beginning of `out`, and returns its length.
pub fn judge_arguments<R: Env + Files>(rt: &R, out: &mut [u8]) -> usize
    requires { 200 ≤ length out.old }
    ensures says { Says out.old out.new result }
    ensures prefix_len { IsPrefixLen result out.new }
{
    // Whether there is an argument shows by asking for it: one that is longer than the buffer is there too.
    let mut byte = [0u8; 1];
    let is_two = !matches!(rt.arg(2, &mut byte), Err(FillError::NotPresent));
    let is_three = !matches!(rt.arg(3, &mut byte), Err(FillError::NotPresent));
    if is_two && !is_three {
        judge_named(rt, out)
    } else {
        judge_files(rt, b"routine.bin", b"report.bin", out)
    }
}

fn judge_named<R: Env + Files>(rt: &R, out: &mut [u8]) -> usize
    requires { 200 ≤ length out.old }
    ensures says { Says out.old out.new result }
    ensures prefix_len { IsPrefixLen result out.new }
{
    let mut routine = [0u8; 4096];
    let n = read_argument(rt, 1, &mut routine);
    let mut report = [0u8; 4096];
    let m = read_argument(rt, 2, &mut report);
    judge_files(rt, &routine[..n], &report[..m], out)
}

// Puts an argument at the beginning of `name`, and returns its length. Of one that does not fit all of `name` is handed on: its 4,096 bytes are more than any
// file's name has, so that the file cannot be read, whereas a shorter part could name another file.
fn read_argument<R: Env>(rt: &R, i: usize, name: &mut [u8]) -> usize
    ensures { IsPrefixLen result name.new }
{
    match rt.arg(i, name) {
        Ok(n) => n,
        Err(FillError::TooLong) => name.len(),
        Err(FillError::NotPresent) => 0,
    }
}
