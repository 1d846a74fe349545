// Reads listings from standard input, each after three bytes with its length, runs the whole check on each, and writes the lines that the loader
// prints for it.
#![tactic(auto)]

use case_input::{Cases, read_full};
use loader_line::answer_line;
use meaning::AREA_WORDS;
use std::io;

// Room for all cases.
const ROOM: usize = 16384;

fn answer(rt: &impl Print, s: &[u8]) -> io::Result<()> {
    let mut area = [0; AREA_WORDS];
    rt.print(answer_line(s, &mut area))
}

fn main(rt: HostRuntime) -> io::Result<()> {
    let mut buffer = [0; ROOM];
    let n = read_full(&mut rt.reader(), &mut buffer);
    for case in Cases::new(&buffer[..n]) {
        answer(&rt, case)?;
    }
    Ok(())
}
