// The verdict of a run: the violation of the lowest entry that ended in error. `verdict_of` is mod.rs 56, from "Report all the join failures" on.
ghost use Rattle.std.specs.Prelude.{◌≡◌, ◌≤◌, map, length};
ghost use Rattle.meaning.specs.Limits.{max_blocks};
ghost use Rattle.meaning.specs.Loop.{lower};
ghost use Rattle.listing.specs.Models.{block_of};
ghost use Rattle.absint.specs.Models.{status_of, statuses_of, ruling_of, failure_of, verdict_in};

use crate::Ruling;
use crate::run_state::{Failure, RunState};
use file_format::CodeOffset;
use listing::Block;

// A failed block: its entry and what it ended with.
#[derive(Clone, Copy)]
pub(crate) struct FailedBlock {
    pub entry: CodeOffset,
    pub failure: Failure,
}

// The failed block of the lower entry: of the lowest so far, and of a block with this entry and status.
fn lower(
    lowest: Option<FailedBlock>,
    entry: CodeOffset,
    status: Option<Failure>,
) -> Option<FailedBlock>
    ensures { failure_of result ≡ lower entry.0 (status_of status) (failure_of lowest) }
{
    let Some(failure) = status else {
        return lowest;
    };
    let new = Some(FailedBlock { entry, failure });
    let Some(old) = lowest else {
        return new;
    };
    if old.entry <= entry { lowest } else { new }
}

pub(crate) fn verdict_of(blocks: &[Block], t: &RunState) -> Ruling
    requires { length blocks.now ≤ max_blocks }
    ensures { (ruling_of result ≡ verdict_in (map block_of blocks.now) t.now) × (length (statuses_of t.now) ≡ max_blocks) }
{
    if let Some(r) = t.stopped {
        return Ruling::Refused(r.number, r.place.0 as usize);
    }
    let mut lowest = None;
    for (i, b) in blocks.iter().enumerate() {
        lowest = lower(lowest, b.entry, t.statuses[i]);
    }
    match lowest {
        Some(f) => Ruling::Violation(f.failure.code, f.failure.offset, f.failure.borrowed_at),
        None => Ruling::Accept,
    }
}
