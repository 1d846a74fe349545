// Reads listings from standard input, each after three bytes with its length, runs the first block of each from the routine's first state,
// and writes for each a line with the violation or refusal and its offset; zeros where the block ends; EMPTY where there is no byte.
#![tactic(auto)]

use abstract_state::state::LOCALS;
use abstract_state_join::first::new;
use case_input::{Cases, read_full};
use listing::{Block, Routine, read_listing};
use meaning::{EDGE_WORDS, MAX_EDGES, MAX_INSTRUCTIONS, MAX_NAMES, ROOM, lesser};
use reference_safety::block::{Ran, run_block};
use std::io;

// Room for all cases.
const BYTES: usize = 8192;

fn write_line(rt: &impl Print, number: usize, place: usize) -> io::Result<()> {
    println!(rt; "{number:03} {place:05}")
}

fn write_ran(rt: &impl Print, r: Ran) -> io::Result<()> {
    let place = r.place.0 as usize;
    let s = r.state;
    if s.violation != 0 {
        return write_line(rt, s.violation as usize, place);
    }
    if s.refusal != 0 {
        return write_line(rt, s.refusal as usize, place);
    }
    write_line(rt, 0, 0)
}

fn first_block(q: Routine) -> Block {
    q.blocks[0]
}

fn run_first(
    rt: &impl Print,
    s: &[u8],
    q: Routine,
    code: &[u16; MAX_INSTRUCTIONS],
) -> io::Result<()> {
    let mut locals = [0u32; LOCALS];
    let mut names = [0u32; MAX_NAMES];
    let mut edges = [[0u32; EDGE_WORDS]; MAX_EDGES];
    let params = &q.params[..lesser(q.param_count, ROOM)];
    let first = new(&mut locals, &mut names, q.locals, params);
    let b = first_block(q);
    let r = run_block(s, q, code, b, &mut locals, &mut names, &mut edges, first);
    write_ran(rt, r)
}

fn answer(rt: &impl Print, s: &[u8]) -> io::Result<()> {
    let mut code = [0u16; MAX_INSTRUCTIONS];
    match read_listing(s, &mut code) {
        Ok(Some(routine)) => run_first(rt, s, routine, &code),
        Ok(None) => rt.write_all(b"EMPTY\n"),
        Err(refused) => write_line(rt, u8::from(refused.refusal) as usize, refused.place),
    }
}

fn main(rt: HostRuntime) -> io::Result<()> {
    let mut buffer = [0; BYTES];
    let n = read_full(&mut rt.reader(), &mut buffer);
    for case in Cases::new(&buffer[..n]) {
        answer(&rt, case)?;
    }
    Ok(())
}
