// Replays the stored list of the oracle's answers, from standard input: oracle/README.md says how it was made, oracle/src/stored.rs its
// format. Prints how many answers are stored and how many of ours agree, with their visits, blurred sets and borrows, after a line for each entry
// that does not.
#![tactic(auto)]

use case_input::read_full;
use meaning::{AREA_WORDS, MAX_BYTES};
use reference_safety_lib::reference_safety_verify;
use std::io;
use std::io::Read;

fn agrees(listing: &[u8], tail: &[u8; 32]) -> bool {
    let mut area = [0; AREA_WORDS];
    let mut answer = [0; 7];
    let is_answered = reference_safety_verify(listing, &mut area, &mut answer);
    let (stored, _) = tail.as_chunks::<4>();
    is_answered
        && stored
            .iter()
            .skip(1)
            .zip(&answer)
            .all(|(bytes, word)| u32::from_le_bytes(*bytes) == *word)
}

fn read_word<R: Read>(input: &mut R) -> u32 {
    let mut bytes = [0; 4];
    read_full(input, &mut bytes);
    u32::from_le_bytes(bytes)
}

// Reads the next entry: its listing after its length, then whose answer it is and the answer's seven words.
fn next_agrees<R: Read>(input: &mut R) -> bool {
    let n = read_word(input) as usize;
    let mut listing = [0; MAX_BYTES];
    if n > MAX_BYTES {
        return false;
    }
    read_full(input, &mut listing[..n]);
    let mut tail = [0; 32];
    read_full(input, &mut tail);
    agrees(&listing[..n], &tail)
}

// Answers how many agree, and prints the number of each entry that differs.
fn replay<R: Read>(rt: &impl Print, input: &mut R, stored: u64) -> io::Result<u64> {
    let mut agree: u64 = 0;
    for entry in 0..stored {
        if next_agrees(input) {
            agree += 1;
        } else {
            println!(rt; "differs: {entry}")?;
        }
    }
    Ok(agree)
}

fn main(rt: HostRuntime) -> io::Result<()> {
    let mut input = rt.reader();
    let stored = read_word(&mut input) as u64;
    let agree = replay(&rt, &mut input, stored)?;
    println!(rt; "{stored} stored, {agree} agree")
}
