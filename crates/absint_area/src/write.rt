// A state's words, written: only those of what it holds.
ghost use Rattle.std.specs.Prelude.{◌≡◌, ◌+◌, ◌*◌, ◌≤◌, length};
ghost use Rattle.std.proofs.Math.Option.{some};
ghost use Rattle.meaning.specs.Limits.{max_locals, max_names, max_edges, max_blocks, area_words, block_words};
ghost use Rattle.meaning.specs.Area.{edge_in, decode, word_at, words_from, unkept, edge_words};
ghost use Rattle.meaning.specs.Laws.Area.{Frame, Written, WrittenEdges, IsLocal, IsName, above_local};
ghost use Rattle.references.specs.Models.{row_of};
ghost use Rattle.abstract_state.specs.Models.{words, state_of};
ghost use Rattle.absint_area.specs.ModelLaws.{local_at, name_at, row_at};

use crate::{EDGES_AT, LOCAL_END, REFS_AT};
use abstract_state::state::{AbstractState, LOCALS};
use meaning::{BLOCK_WORDS, EDGE_WORDS, MAX_BLOCKS, MAX_EDGES, MAX_NAMES, lesser};
use references::rows::Row;

pub(crate) fn put_absent(ws: &mut [u32])
    requires { area_words ≤ length ws.old }
    ensures { ws.new ≡ unkept max_blocks ws.old }
{
    // (By index: of each block's words only the first is written.)
    for b in 0..MAX_BLOCKS {
        ws[BLOCK_WORDS * b] = 0;
    }
}

fn above_local(i: usize, names: usize, edges: usize) -> u32
    requires { (names ≤ max_names) × (edges ≤ max_edges) }
    ensures { (result ≡ above_local names edges i) × (result ≤ max_edges) }
{
    match i {
        0 => 1,
        1 => names as u32,
        2 => edges as u32,
        _ => 0,
    }
}

// A loaded local's word still has a count above it.
fn put_locals(ws: &mut [u32], at: usize, locals: &[u32; LOCALS], names: usize, edges: usize)
    requires { (at + max_locals ≤ length ws.old) × (names ≤ max_names) × (edges ≤ max_edges) }
    ensures { Written (IsLocal (local_at locals.now) names edges) at max_locals max_locals ws.old ws.new }
{
    for (i, local) in locals.iter().enumerate() {
        let w = *local % LOCAL_END;
        ws[at + i] = w + above_local(i, names, edges) * LOCAL_END;
    }
}

fn put_refs(ws: &mut [u32], at: usize, names: &[u32; MAX_NAMES], n: usize)
    requires { (at + max_names ≤ length ws.old) × (n ≤ max_names) }
    ensures { Written (IsName (name_at names.now)) at max_names n ws.old ws.new }
{
    // (By index: for `copy_from_slice` with a length that is not known the archive for C needs memmove, and nothing else in it does.)
    for i in 0..n {
        ws[at + i] = names[i];
    }
}

fn put_row(ws: &mut [u32], at: usize, x: &Row)
    requires { at + edge_words ≤ length ws.old }
    ensures { Frame at edge_words ws.old ws.new × (edge_in (word_at ws.new) at ≡ row_of x.now) }
{
    ws[at..at + EDGE_WORDS].copy_from_slice(x);
}

fn put_edges(ws: &mut [u32], at: usize, edges: &[Row; MAX_EDGES], n: usize)
    requires { (at + edge_words * max_edges ≤ length ws.old) × (n ≤ max_edges) }
    ensures { WrittenEdges (row_at edges.now) at max_edges n ws.old ws.new }
{
    for (i, row) in edges[..n].iter().enumerate() {
        put_row(ws, at + EDGE_WORDS * i, row);
    }
}

pub(crate) fn put_state(
    ws: &mut [u32],
    at: usize,
    locals: &[u32; LOCALS],
    names: &[u32; MAX_NAMES],
    edges: &[Row; MAX_EDGES],
    s: AbstractState,
)
    requires { at + block_words ≤ length ws.old }
    ensures { Frame at block_words ws.old ws.new × (length locals.now ≡ max_locals → length names.now ≡ max_names → length edges.now ≡ max_edges → decode s.num_locals (words_from ws.new at) ≡ some (state_of (words locals.now names.now edges.now s))) }
{
    let g = s.borrow_graph;
    let n = lesser(g.refs, MAX_NAMES);
    let m = lesser(g.edges, MAX_EDGES);
    put_locals(ws, at, locals, n, m);
    put_refs(ws, at + REFS_AT, names, n);
    put_edges(ws, at + EDGES_AT, edges, m);
}
