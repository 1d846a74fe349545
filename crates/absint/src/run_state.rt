// What a run has by value. The Rust's `inv_map` is in two parts: each block's `pre` stands in the area, its `post` here. Where each stands in
// the Rust (absint.rs):
//
//   here       the Rust
//   Failure    24 `BlockPostcondition`: its `Error`; `None` stands for the others
//   RunState   80 to 82, the locals of `analyze_function`
ghost use Rattle.std.specs.Prelude.{◌≡◌, None, cond, ◌+◌, ◌≤◌, ◌<◌, length, set};
ghost use Rattle.meaning.specs.Limits.{max_blocks, u32_most};
ghost use Rattle.meaning.specs.Loop.{fine, failed, at, stopped};
ghost use Rattle.absint.specs.Models.{status_of, statuses_of, next_of, turns_end, blurred_end, Started, SameCounts};

use file_format::CodeOffset;
use meaning::MAX_BLOCKS;

// What a block ended with, where it failed: the violation's code, its instruction's offset, and that of the lowest borrow behind it.
#[derive(Clone, Copy)]
pub(crate) struct Failure {
    pub code: u8,
    pub offset: CodeOffset,
    pub borrowed_at: CodeOffset,
}

// The refusal that stopped a run: its number of document 01, and its place. No `Refusal` stands for the number, because the state's own number, with
// which a visit stops, comes in here too.
#[derive(Clone, Copy)]
pub(crate) struct Stop {
    pub number: u8,
    pub place: CodeOffset,
}

// `next` counts until the run is stopped, and is free from then on. `turns` counts visits and blocks passed over, `blurred` the sets blurred in
// visits and joins.
#[derive(Clone, Copy)]
pub(crate) struct RunState {
    pub next: usize,
    pub stopped: Option<Stop>,
    pub visits: u32,
    pub turns: u32,
    pub blurred: u64,
    pub statuses: [Option<Failure>; MAX_BLOCKS],
}

// A count of blurred sets goes on.
pub(crate) fn plus(n: u64, k: u32) -> u64
    requires { n ≤ blurred_end }
    ensures { (result ≡ n + k) × (k ≤ u32_most) }
{
    n + k as u64
}

impl RunState {
    pub(crate) fn start() -> Self
        ensures { Started result }
    {
        Self {
            next: 0,
            stopped: None,
            visits: 0,
            turns: 0,
            blurred: 0,
            statuses: [None; MAX_BLOCKS],
        }
    }

    // To the block listed after this one.
    pub(crate) fn onward(self) -> Self
        requires { (self.next < max_blocks) × (self.turns < turns_end) }
        ensures { (self.stopped ≡ None → next_of result ≡ at (self.next + 1)) × (statuses_of result ≡ statuses_of self) × (result.visits ≡ self.visits) × (result.turns ≡ self.turns + 1) × (result.blurred ≡ self.blurred) }
    {
        let mut t = self;
        t.next = self.next + 1;
        t.turns = self.turns + 1;
        t
    }

    pub(crate) fn stop(self, number: u8, place: CodeOffset) -> Self
        ensures { (next_of result ≡ stopped number place.0) × (statuses_of result ≡ statuses_of self) × SameCounts self result × (length (statuses_of self) ≡ max_blocks) }
    {
        let mut t = self;
        t.stopped = Some(Stop { number, place });
        t
    }

    pub(crate) fn mark(self, j: usize, x: Option<Failure>) -> Self
        requires { j < max_blocks }
        ensures { (next_of result ≡ next_of self) × (statuses_of result ≡ set (statuses_of self) j (status_of x)) × SameCounts self result × (length (statuses_of self) ≡ max_blocks) }
    {
        let mut t = self;
        t.statuses[j] = x;
        t
    }

    pub(crate) fn fail(
        self,
        j: usize,
        code: u8,
        offset: CodeOffset,
        borrowed_at: CodeOffset,
    ) -> Self
        requires { j < max_blocks }
        ensures { (next_of result ≡ next_of self) × (statuses_of result ≡ set (statuses_of self) j (failed code offset.0 borrowed_at.0)) × SameCounts self result × (length (statuses_of self) ≡ max_blocks) }
    {
        self.mark(
            j,
            Some(Failure {
                code,
                offset,
                borrowed_at,
            }),
        )
    }

    // An error vanishes.
    pub(crate) fn clear(self, j: usize) -> Self
        requires { j < max_blocks }
        ensures { (next_of result ≡ next_of self) × (statuses_of result ≡ set (statuses_of self) j fine) × SameCounts self result × (length (statuses_of self) ≡ max_blocks) }
    {
        self.mark(j, None)
    }

    // A block whose kept state has changed: its error vanishes, and where it lies back it is next.
    pub(crate) fn revisit(self, j: usize, back: bool) -> Self
        requires { (j < max_blocks) × (self.stopped ≡ None) }
        ensures { (next_of result ≡ at (cond back j self.next)) × (statuses_of result ≡ set (statuses_of self) j fine) × SameCounts self result × (length (statuses_of self) ≡ max_blocks) }
    {
        let mut t = self.clear(j);
        if back {
            t.next = j;
        }
        t
    }
}
