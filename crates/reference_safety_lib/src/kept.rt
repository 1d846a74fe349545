// The check that leaves the kept states to be looked at.
ghost use Rattle.std.specs.Prelude.{◌≡◌, length};
ghost use Rattle.meaning.specs.Verify as Whole;
ghost use Rattle.reference_safety_lib.specs.Words.{fits, written, Kept};

use crate::{ANSWER_WORDS, put_verdict};
use absint::analyze;

// The same answer, but the area is not zeroed: it holds the kept states as the block loop left them.
// One function for both would take the check as a parameter, and its contract would be longer than what it saves: these lines but for `analyze`.
pub fn reference_safety_analyze(listing: &[u8], area: &mut [u32], answer: &mut [u32]) -> bool
    ensures { (result ≡ fits answer.old) × (answer.new ≡ written (Whole.verify (length area.old) listing.now) answer.old) × Kept answer.old listing.now area.old area.new }
{
    if answer.len() < ANSWER_WORDS {
        return false;
    }
    put_verdict(analyze(listing, area), answer);
    true
}
