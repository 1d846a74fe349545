// The reader for a driver in Rust or C (bench/).
#![tactic(auto)]

ghost use Rattle.std.specs.Prelude.{◌≡◌};
ghost use Rattle.meaning.specs.Listing.{read_listing};
ghost use Rattle.bench_listing.specs.Number.{number_of};

use listing::read_listing;
use meaning::MAX_INSTRUCTIONS;

// The number of a listing's refusal; 0, if there is none.
#[unsafe(no_mangle)]
pub extern "C" fn listing_number(s: &[u8]) -> u8
    ensures { result ≡ number_of (read_listing s.now) }
{
    let mut code = [0u16; MAX_INSTRUCTIONS];
    match read_listing(s, &mut code) {
        Ok(_) => 0,
        Err(refused) => u8::from(refused.refusal),
    }
}
