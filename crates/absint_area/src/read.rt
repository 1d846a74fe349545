// What a block's words say, read: only those of what is held.
ghost use Rattle.std.specs.Prelude.{◌≡◌, [], ◌+◌, ◌*◌, ◌≤◌, length, IfSome};
ghost use Rattle.meaning.specs.Limits.{max_locals, max_names, max_edges, block_words};
ghost use Rattle.meaning.specs.Area.{local_in, name_in, edge_in, decode, word_at, words_from, edge_words};
ghost use Rattle.meaning.specs.Laws.Area.{Filled};
ghost use Rattle.references.specs.Models.{row_of};
ghost use Rattle.absint_area.specs.Models.{loaded_in};

use crate::{EDGES_AT, Kept, LOCAL_END, REFS_AT};
use abstract_state::state::LOCALS;
use meaning::{EDGE_WORDS, MAX_EDGES, MAX_NAMES, lesser};
use references::rows::Row;

fn get_words<const N: usize>(ws: &[u32], at: usize, n: usize, out: &mut [u32; N])
    requires { (at + n ≤ length ws.now) × (n ≤ N) }
    ensures { length out.old ≡ N → Filled (λ w. w) 0 (words_from ws.now at) N n out.new }
{
    out[..n].copy_from_slice(&ws[at..at + n]);
}

fn get_row(ws: &[u32], at: usize) -> Row
    requires { at + edge_words ≤ length ws.now }
    ensures { row_of result ≡ edge_in (word_at ws.now) at }
{
    let mut out = [0u32; EDGE_WORDS];
    out.copy_from_slice(&ws[at..at + EDGE_WORDS]);
    out
}

fn get_edges(ws: &[u32], at: usize, n: usize, edges: &mut [Row; MAX_EDGES])
    requires { (at + edge_words * max_edges ≤ length ws.now) × (n ≤ max_edges) }
    ensures { length edges.old ≡ max_edges → Filled row_of [] (λ i. edge_in (word_at ws.now) (at + edge_words * i)) max_edges n edges.new }
{
    // (By index: the row is written in place, and the index tells too where its words stand in the area.)
    for i in 0..n {
        edges[i] = get_row(ws, at + EDGE_WORDS * i);
    }
}

pub(crate) fn get_kept(
    ws: &[u32],
    at: usize,
    num_locals: u8,
    locals: &mut [u32; LOCALS],
    names: &mut [u32; MAX_NAMES],
    edges: &mut [Row; MAX_EDGES],
) -> Option<Kept>
    requires { at + block_words ≤ length ws.now }
    ensures { IfSome result (λ k. (k.refs ≤ max_names) × (k.edges ≤ max_edges)) × (length locals.old ≡ max_locals → length names.old ≡ max_names → length edges.old ≡ max_edges → (loaded_in locals.new names.new edges.new num_locals result ≡ decode num_locals (words_from ws.now at)) × (length locals.new ≡ max_locals) × (length names.new ≡ max_names) × (length edges.new ≡ max_edges)) }
{
    let kept = ws[at] / LOCAL_END;
    if kept == 0 {
        return None;
    }
    let l = lesser(num_locals as usize, LOCALS);
    let n = lesser((ws[at + 1] / LOCAL_END) as usize, MAX_NAMES);
    let m = lesser((ws[at + 2] / LOCAL_END) as usize, MAX_EDGES);
    get_words(ws, at, l, locals);
    get_words(ws, at + REFS_AT, n, names);
    get_edges(ws, at + EDGES_AT, m, edges);
    Some(Kept { refs: n, edges: m })
}
