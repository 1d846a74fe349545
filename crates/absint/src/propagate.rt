// A block's end state goes to its successors. Where each stands in the Rust (absint.rs):
//
//   here                         the Rust
//   propagate                    116 "propagate postcondition of this block to successor blocks"
//   propagate_to, propagate_at   118 to 154, the body of that loop, for one successor
ghost use Rattle.std.specs.Prelude.{◌≡◌, None, List, map, MatchOption, ◌+◌, ◌≤◌, ◌<◌, length};
ghost use Rattle.meaning.specs.Limits.{max_blocks, area_words, u32_most};
ghost use Rattle.meaning.specs.Loop as L;
ghost use Rattle.meaning.specs.Loop.{position};
ghost use Rattle.listing.specs.Models.{block_of};
ghost use Rattle.abstract_state.specs.Models.{words, state_of};
ghost use Rattle.absint.specs.Models.{blurred_end, Sound, Sent, PropagatedTo, Propagated};

use crate::kept::start_from;
use crate::run_state::{RunState, plus};
use absint_area::store;
use abstract_state::state::{AbstractState, LOCALS};
use abstract_state_join::join::join;
use file_format::CodeOffset;
use listing::Block;
use meaning::{EDGE_WORDS, MAX_EDGES, MAX_NAMES};

// Where the block with this entry is listed, if there is one.
fn position_of(blocks: &[Block], e: CodeOffset) -> Option<usize>
    ensures { MatchOption result (length blocks.now ≤ position (map block_of blocks.now) e.0) (λ i. (i ≡ position (map block_of blocks.now) e.0) × (i < length blocks.now)) }
{
    blocks.iter().position(|b| e == b.entry)
}

// The end state s of block b, to the successor with entry e, which is listed at j. A join works on both graphs, so it gets copies of ours.
fn propagate_at(
    area: &mut [u32],
    b: Block,
    e: CodeOffset,
    j: usize,
    locals: &[u32; LOCALS],
    names: &[u32; MAX_NAMES],
    edges: &[[u32; EDGE_WORDS]; MAX_EDGES],
    s: AbstractState,
    t: RunState,
) -> RunState
    requires { (t.stopped ≡ None) × (j < max_blocks) × (area_words ≤ length area.old) × Sent s.num_locals area.old (words locals.now names.now edges.now s) × (t.blurred ≤ blurred_end) }
    ensures { ((bs : List L.Block) → j ≡ position bs e.0 → j < length bs → length bs ≤ max_blocks →
        PropagatedTo bs s.num_locals (block_of b) (state_of (words locals.now names.now edges.now s)) e.0 area.old area.new t result)
        × Sound s.num_locals area.new }
{
    let mut ls = [0u32; LOCALS];
    let mut ns = [0u32; MAX_NAMES];
    let mut es = [[0u32; EDGE_WORDS]; MAX_EDGES];
    let Some(old) = start_from(area, j, s.num_locals, &mut ls, &mut ns, &mut es) else {
        store(area, j, locals, names, edges, s);
        return t.clear(j);
    };
    let mut n2 = *names;
    let mut e2 = *edges;
    let x = match join(&mut ls, &mut ns, &mut es, old, locals, &mut n2, &mut e2, s) {
        Ok(x) => x,
        Err(r) => return t.stop(u8::from(r), b.exit),
    };
    let mut u = t;
    u.blurred = plus(t.blurred, x.blurred);
    if x.changed {
        store(area, j, &ls, &ns, &es, x.state);
        return u.revisit(j, e <= b.entry);
    }
    u
}

// To the successor with entry e. Nothing is done where the run has stopped, or where no block has that entry.
fn propagate_to(
    area: &mut [u32],
    blocks: &[Block],
    b: Block,
    e: CodeOffset,
    locals: &[u32; LOCALS],
    names: &[u32; MAX_NAMES],
    edges: &[[u32; EDGE_WORDS]; MAX_EDGES],
    s: AbstractState,
    t: RunState,
) -> RunState
    requires { (length blocks.now ≤ max_blocks) × (area_words ≤ length area.old) × Sent s.num_locals area.old (words locals.now names.now edges.now s) × (t.blurred ≤ blurred_end) }
    ensures { PropagatedTo (map block_of blocks.now) s.num_locals (block_of b) (state_of (words locals.now names.now edges.now s)) e.0 area.old area.new t result
        × Sound s.num_locals area.new }
{
    if t.stopped.is_some() {
        return t;
    }
    match position_of(blocks, e) {
        Some(j) => propagate_at(area, b, e, j, locals, names, edges, s, t),
        None => t,
    }
}

// To its successors as listed: a block without any has returned, and its state goes to nobody.
pub(crate) fn propagate(
    area: &mut [u32],
    blocks: &[Block],
    b: Block,
    locals: &[u32; LOCALS],
    names: &[u32; MAX_NAMES],
    edges: &[[u32; EDGE_WORDS]; MAX_EDGES],
    s: AbstractState,
    t: RunState,
) -> RunState
    requires { (length blocks.now ≤ max_blocks) × (area_words ≤ length area.old) × Sent s.num_locals area.old (words locals.now names.now edges.now s) × (1 ≤ b.count) × (t.blurred + u32_most ≤ blurred_end) }
    ensures { Propagated (map block_of blocks.now) s.num_locals (block_of b) (state_of (words locals.now names.now edges.now s)) area.old area.new t result }
{
    let u = propagate_to(area, blocks, b, b.first, locals, names, edges, s, t);
    if b.count == 1 {
        return u;
    }
    propagate_to(area, blocks, b, b.second, locals, names, edges, s, u)
}
