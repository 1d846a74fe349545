// Reads listings from standard input, each after three bytes with its length, and writes for each a line with the number and the place
// of its refusal, or 0 and how many instructions it has, or EMPTY where it has no byte.
#![tactic(auto)]

use case_input::{Cases, read_full};
use listing::read_listing;
use meaning::MAX_INSTRUCTIONS;
use std::io;

// Room for all cases.
const ROOM: usize = 300_000;

// The last N digits of a number.
fn digits<const N: usize>(n: usize) -> [u8; N] {
    let mut out = [b'0'; N];
    let mut left = n;
    for digit in out.iter_mut().rev() {
        *digit = (left % 10) as u8 + b'0';
        left /= 10;
    }
    out
}

// (By hand: with `println!` a run on many short listings took 1.4 times as long.)
fn write_line(rt: &impl Print, number: u8, place: usize) -> io::Result<()> {
    let [a, b] = digits::<2>(number as usize);
    let [c, d, e, f, g] = digits::<5>(place);
    rt.write_all(&[a, b, b' ', c, d, e, f, g, b'\n'])
}

fn answer(rt: &impl Print, s: &[u8]) -> io::Result<()> {
    let mut code = [0u16; MAX_INSTRUCTIONS];
    match read_listing(s, &mut code) {
        Ok(Some(routine)) => write_line(rt, 0, routine.code_count),
        Ok(None) => rt.write_all(b"EMPTY\n"),
        Err(refused) => write_line(rt, u8::from(refused.refusal), refused.place),
    }
}

fn main(rt: HostRuntime) -> io::Result<()> {
    let mut buffer = [0; ROOM];
    let n = read_full(&mut rt.reader(), &mut buffer);
    for case in Cases::new(&buffer[..n]) {
        answer(&rt, case)?;
    }
    Ok(())
}
