// Judges cases that are not accepted, one after the other, and prints a line for each. The last three are the bench's report as document 01 changes it.
#![tactic(auto)]

use judge_files::arguments::judge_arguments;
use judge_files::judge_files;
use std::io;

fn main(rt: HostRuntime) -> io::Result<()> {
    let mut line = [0u8; 200];
    // Neither file is there: both are taken as empty, and the routine is looked at first.
    let n = judge_files(&rt, b"missing.bin", b"missing.bin", &mut line);
    rt.write_all(&line[..n])?;
    // A report that does not end, on a routine that is not there: the report's length is looked at first.
    let n = judge_files(&rt, b"missing.bin", b"/dev/zero", &mut line);
    rt.write_all(&line[..n])?;
    // A folder can be opened and not be read. As the routine it is told before the report's length.
    let n = judge_files(&rt, b".", b"/dev/zero", &mut line);
    rt.write_all(&line[..n])?;
    // As the report it is told before any look at the routine's bytes.
    let n = judge_files(&rt, b"missing.bin", b".", &mut line);
    rt.write_all(&line[..n])?;
    // As both, the routine is told.
    let n = judge_files(&rt, b".", b".", &mut line);
    rt.write_all(&line[..n])?;
    // By the arguments: the report's name has 4,097 bytes, one more than is taken of a name.
    let n = judge_arguments(&rt, &mut line);
    rt.write_all(&line[..n])?;
    // The literal of clause 1 is true already after hint 0, so that hint 1 neither decides anything nor is a conflict.
    let n = judge_files(&rt, b"routine.bin", b"hints_0_1.bin", &mut line);
    rt.write_all(&line[..n])?;
    // Clause 2 is a conflict after hint 0, so that no hint may follow it.
    let n = judge_files(&rt, b"routine.bin", b"hints_0_2_1.bin", &mut line);
    rt.write_all(&line[..n])?;
    // The last byte, the end of the proof, is gone.
    let n = judge_files(&rt, b"routine.bin", b"cut.bin", &mut line);
    rt.write_all(&line[..n])?;
    Ok(())
}
