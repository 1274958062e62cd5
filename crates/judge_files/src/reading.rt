// Reading a file by its name. That the bytes read are the file's is only tested, since no contract speaks of what the system reads.
ghost use Rattle.judge_files.specs.Inner.Read.{Within};

use std::fs;
use std::io::{ErrorKind, Read};
use std::rt::Files;
use std::str::from_utf8;

// Reads a file into `buffer`, as far as it fits, and returns how many bytes it gave, if it can be read to its end. A missing file is empty. A name is text: no
// file is found by another.
pub fn read_file<R: Files>(rt: &R, name: &[u8], buffer: &mut [u8]) -> Option<usize>
    ensures { Within result buffer.new }
{
    let Ok(path) = from_utf8(name) else {
        return None;
    };
    match fs::open(rt, path) {
        Ok(file) => read_to_end(file, buffer),
        Err(e) => {
            if e.kind() == ErrorKind::NotFound {
                Some(0)
            } else {
                None
            }
        }
    }
}

// Reads until `buffer` is full or the file ends: how many bytes a turn reads is the file's to say.
fn read_to_end<F: Read + Drop>(file: F, buffer: &mut [u8]) -> Option<usize>
    ensures { Within result buffer.new }
{
    let mut file = file;
    let mut n = 0;
    while n < buffer.len() {
        let Ok(more) = file.read(&mut buffer[n..]) else {
            return None;
        };
        if more == 0 {
            break;
        }
        n += more;
    }
    Some(n)
}
