// The block loop (absint.rs) over the lent work area, and the check of a listing from its bytes to the verdict. Where each stands in the Rust:
//
//   here      the Rust
//   verify    mod.rs 47 `verify`
//   analyze   the same, with the kept states left to be looked at
#![tactic(auto)]

mod failure;
mod interpreter;
mod kept;
mod propagate;
mod run_state;

ghost use Rattle.std.specs.Prelude.{◌≡◌, length};
ghost use Rattle.meaning.specs.Area.{forgotten, cleared};
ghost use Rattle.meaning.specs.Loop.{refusal, empty_cell};
ghost use Rattle.meaning.specs.Verify as Whole;
ghost use Rattle.absint.specs.Models.{verdict_of, Left};

use crate::failure::verdict_of;
use crate::interpreter::analyze_function;
use absint_area::{clear, forget};
use file_format::CodeOffset;
use listing::read_listing;
use meaning::{AREA_WORDS, MAX_INSTRUCTIONS};

#[derive(Clone, Copy)]
pub enum Ruling {
    Accept,
    // The code, the offset of the instruction, and that of the lowest borrow behind it.
    Violation(u8, CodeOffset, CodeOffset),
    // The number of document 01, and its place.
    Refused(u8, usize),
    // There is no routine: the listing has no byte.
    Empty,
}

// `blurred`: how many sets were blurred in the run.
#[derive(Clone, Copy)]
pub struct Verdict {
    pub ruling: Ruling,
    pub visits: u32,
    pub blurred: u64,
}

// The verdict, with the kept states as the loop leaves them still in the area.
pub fn analyze(listing: &[u8], area: &mut [u32]) -> Verdict
    ensures { (verdict_of result ≡ Whole.verify (length area.old) listing.now) × Left listing.now area.old area.new }
{
    if area.len() < AREA_WORDS {
        return refused(7, 0);
    }
    let mut code = [0u16; MAX_INSTRUCTIONS];
    match read_listing(listing, &mut code) {
        Ok(Some(q)) => {
            let t = analyze_function(listing, q, &code, area);
            Verdict {
                ruling: verdict_of(&q.blocks[..q.block_count], &t),
                visits: t.visits,
                blurred: t.blurred,
            }
        }
        Ok(None) => empty_cell(area),
        Err(r) => refused(u8::from(r.refusal), r.place),
    }
}

// The first 16,384 words of the area end zero, unless it is shorter.
pub fn verify(listing: &[u8], area: &mut [u32]) -> Verdict
    ensures { (verdict_of result ≡ Whole.verify (length area.old) listing.now) × (area.new ≡ cleared area.old) }
{
    let v = analyze(listing, area);
    clear(area);
    v
}

// No block is left with a kept state.
fn empty_cell(area: &mut [u32]) -> Verdict
    ensures { (verdict_of result ≡ record { verdict = empty_cell; visits = 0; blurred = 0 }) × (area.new ≡ forgotten area.old) }
{
    forget(area);
    Verdict {
        ruling: Ruling::Empty,
        visits: 0,
        blurred: 0,
    }
}

fn refused(number: u8, place: usize) -> Verdict
    ensures { verdict_of result ≡ record { verdict = refusal number place; visits = 0; blurred = 0 } }
{
    Verdict {
        ruling: Ruling::Refused(number, place),
        visits: 0,
        blurred: 0,
    }
}
