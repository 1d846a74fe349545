// The locals of a state (abstract_state.rs, 74).
ghost use Rattle.std.specs.Prelude.{◌≡◌, min};
ghost use Rattle.meaning.specs.Limits.{max_locals};

use meaning::{MAX_LOCALS, lesser};

// How many locals a state has: a number beyond 16 reads as 16.
pub(crate) fn count(num_locals: u8) -> usize
    ensures { result ≡ min num_locals max_locals }
{
    lesser(num_locals as usize, MAX_LOCALS as usize)
}
