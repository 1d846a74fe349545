// The check for controllers as a static library, to be linked from C or Rust (include/buslatim.h): reference_safety_lib's two functions.
#![tactic(auto)]

ghost use Rattle.std.specs.Prelude.{◌≡◌, length};
ghost use Rattle.meaning.specs.Verify as Whole;
ghost use Rattle.reference_safety_lib.specs.Words.{fits, written, area_after, Kept};

use reference_safety_lib::kept;

#[unsafe(no_mangle)]
pub extern "C" fn reference_safety_verify(
    listing: &[u8],
    area: &mut [u32],
    answer: &mut [u32],
) -> bool
    ensures { (result ≡ fits answer.old) × (answer.new ≡ written (Whole.verify (length area.old) listing.now) answer.old) × (area.new ≡ area_after answer.old area.old) }
{
    reference_safety_lib::reference_safety_verify(listing, area, answer)
}

#[unsafe(no_mangle)]
pub extern "C" fn reference_safety_analyze(
    listing: &[u8],
    area: &mut [u32],
    answer: &mut [u32],
) -> bool
    ensures { (result ≡ fits answer.old) × (answer.new ≡ written (Whole.verify (length area.old) listing.now) answer.old) × Kept answer.old listing.now area.old area.new }
{
    kept::reference_safety_analyze(listing, area, answer)
}
