// Reads a listing from standard input to its end, and prints the line of its verdict. Where a read fails it prints nothing.
#![tactic(auto)]

use case_input::fill;
use loader_line::answer_line;
use meaning::{AREA_WORDS, MAX_BYTES};
use std::io;
use std::io::Read;

// Room for the longest listing and one byte more, which tells that the input is too long.
const ROOM: usize = MAX_BYTES + 1;

// Reads once, and answers whether there may be more.
fn pass_over<R: Read>(input: &mut R) -> bool {
    let mut buf = [0; 65536];
    matches!(input.read(&mut buf), Ok(n) if n > 0)
}

// Reads what no listing has room for. A loop must end, so it has a number of turns that no input takes.
fn read_rest<R: Read>(input: &mut R) {
    for _ in 0..u64::MAX {
        if !pass_over(input) {
            break;
        }
    }
}

fn main(rt: HostRuntime) -> io::Result<()> {
    let mut buffer = [0; ROOM];
    let mut area = [0; AREA_WORDS];
    let mut stdin = rt.reader();
    let Ok(n) = fill(&mut stdin, &mut buffer) else {
        return Ok(());
    };
    read_rest(&mut stdin);
    rt.print(answer_line(&buffer[..n], &mut area))
}
