// The check for controllers (include/buslatim.h). reference_safety_lib_c exports it to C and Rust.
#![tactic(auto)]

pub mod kept;

ghost use Rattle.std.specs.Prelude.{◌≡◌, ◌≤◌, length};
ghost use Rattle.meaning.specs.Laws.Answer.{Low};
ghost use Rattle.meaning.specs.Verify as Whole;
ghost use Rattle.absint.specs.Models.{ruling_of, verdict_of};
ghost use Rattle.reference_safety_lib.specs.Words.{answer_words, fits, written, area_after, put_words, words_of};

use absint::{Ruling, Verdict, verify};

pub(crate) const ANSWER_WORDS: usize = 7;

// The numbers that a word holds.
const WORD_END: u64 = 4294967296;

// The answer's first seven words: 0 accepted, 1 violation, 2 refused, 3 an empty cell; the code or number; the offset or place; the visits; the number
// of sets blurred, its low word and its high word; and, after a violation, where what it fails on was borrowed, else 0. False, and nothing is done,
// where the answer has fewer.
pub fn reference_safety_verify(listing: &[u8], area: &mut [u32], answer: &mut [u32]) -> bool
    ensures { (result ≡ fits answer.old) × (answer.new ≡ written (Whole.verify (length area.old) listing.now) answer.old) × (area.new ≡ area_after answer.old area.old) }
{
    if answer.len() < ANSWER_WORDS {
        return false;
    }
    put_verdict(verify(listing, area), answer);
    true
}

// The words of a verdict, put at the start of an answer that has room for them.
pub(crate) fn put_verdict(v: Verdict, answer: &mut [u32])
    requires low { Low (ruling_of v.ruling) }
    requires room { answer_words ≤ length answer.old }
    ensures { answer.new ≡ put_words (words_of (verdict_of v)) answer.old }
{
    answer[..ANSWER_WORDS].copy_from_slice(&verdict_words(v));
}

fn verdict_words(v: Verdict) -> [u32; ANSWER_WORDS]
    requires { Low (ruling_of v.ruling) }
    ensures { result ≡ words_of (verdict_of v) }
{
    let (kind, number, place, borrowed_at) = match v.ruling {
        Ruling::Accept => (0, 0, 0, 0),
        Ruling::Violation(code, offset, borrowed_at) => {
            (1, code as u32, offset.0 as u32, borrowed_at.0 as u32)
        }
        Ruling::Refused(number, place) => (2, number as u32, place as u32, 0),
        Ruling::Empty => (3, 0, 0, 0),
    };
    let low = (v.blurred % WORD_END) as u32;
    let high = (v.blurred / WORD_END) as u32;
    [kind, number, place, v.visits, low, high, borrowed_at]
}
