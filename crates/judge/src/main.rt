// Judges a report on a routine, in the files report.bin and routine.bin or in those that two arguments name. Its stored run is document 01's on the bench.
#![tactic(auto)]

use judge_files::arguments::judge_arguments;
use std::io;

fn main(rt: HostRuntime) -> io::Result<()> {
    let mut line = [0u8; 200];
    let n = judge_arguments(&rt, &mut line);
    rt.write_all(&line[..n])
}
