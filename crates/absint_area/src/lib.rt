// The kept states of the blocks, as words of the lent area. (meaning's Area says what each word stands for.) The words of a run's arrays are
// the area's words, so that a state is loaded and stored word by word. Where each stands in the Rust (absint.rs):
//
//   here      the Rust
//   Kept      36 `BlockInvariant`: its `pre`
//   load      92 `inv_map.get_mut(&block_id)`
//   store     83 and 146 `inv_map.insert`
//   forget    80 `InvariantMap::new`
#![tactic(auto)]

mod read;
mod write;

ghost use Rattle.std.specs.Prelude.{◌≡◌, ◌≤◌, length, IfSome};
ghost use Rattle.meaning.specs.Limits.{max_locals, max_names, max_edges};
ghost use Rattle.meaning.specs.Area.{has_block, kept_of, Stored, forgotten, cleared};
ghost use Rattle.abstract_state.specs.Models.{words, state_of};
ghost use Rattle.absint_area.specs.Models.{loaded_in};

use abstract_state::state::{AbstractState, LOCALS};
use meaning::{AREA_WORDS, BLOCK_WORDS, MAX_BLOCKS, MAX_EDGES, MAX_NAMES};
use references::rows::Row;

// A local's part of a word is below LOCAL_END.
const LOCAL_END: u32 = 262144;

// Where in a block's words the names and the edges start.
const REFS_AT: usize = LOCALS;

const EDGES_AT: usize = 64;

// How many names and edges the state has that a block starts from.
#[derive(Clone, Copy)]
pub struct Kept {
    pub refs: usize,
    pub edges: usize,
}

fn has_block(n: usize, b: usize) -> bool
    ensures { result ≡ has_block n b }
{
    (AREA_WORDS <= n) & (b < MAX_BLOCKS)
}

// Then every word of the blocks is zero.
pub fn clear(area: &mut [u32])
    ensures { area.new ≡ cleared area.old }
{
    if AREA_WORDS <= area.len() {
        area[..AREA_WORDS].fill(0);
    }
}

// Then no block has a kept state: the sixteen words that tell so are zero. The other words stay, and so does a shorter area.
pub fn forget(area: &mut [u32])
    ensures { area.new ≡ forgotten area.old }
{
    if AREA_WORDS <= area.len() {
        write::put_absent(area);
    }
}

// Of the state, its locals and its graph.
pub fn store(
    area: &mut [u32],
    b: usize,
    locals: &[u32; LOCALS],
    names: &[u32; MAX_NAMES],
    edges: &[Row; MAX_EDGES],
    s: AbstractState,
)
    ensures { length locals.now ≡ max_locals → length names.now ≡ max_names → length edges.now ≡ max_edges → Stored s.num_locals (state_of (words locals.now names.now edges.now s)) b area.old area.new }
{
    if has_block(area.len(), b) {
        write::put_state(area, BLOCK_WORDS * b, locals, names, edges, s);
    }
}

// The kept state's words go into the arrays: its locals', names' and edges'. What else they hold stays. `None`: the block has no state.
pub fn load(
    area: &[u32],
    b: usize,
    num_locals: u8,
    locals: &mut [u32; LOCALS],
    names: &mut [u32; MAX_NAMES],
    edges: &mut [Row; MAX_EDGES],
) -> Option<Kept>
    ensures { IfSome result (λ k. (k.refs ≤ max_names) × (k.edges ≤ max_edges)) × (length locals.old ≡ max_locals → length names.old ≡ max_names → length edges.old ≡ max_edges → (loaded_in locals.new names.new edges.new num_locals result ≡ kept_of num_locals area.now b) × (length locals.new ≡ max_locals) × (length names.new ≡ max_names) × (length edges.new ≡ max_edges)) }
{
    if has_block(area.len(), b) {
        return read::get_kept(area, BLOCK_WORDS * b, num_locals, locals, names, edges);
    }
    None
}
