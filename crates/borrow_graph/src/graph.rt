// What a graph has beside its arrays, and what its calls answer. Where each stands in the Rust (graph.rs):
//
//   here                the Rust
//   BorrowGraph         15 `BorrowGraph`; its map is the arrays of names and edges
//   new                 24 `new`
//   is_mutable          29 `is_mutable`
//   new_ref             35 `new_ref`
//   well_formed, link   367 `check_invariant`, with 373, 383 and 408; and the order of the list, which a map has of itself
//   contains_id         420 `contains_id`
//   all_refs            425 `all_refs`
//
// `measure` has nothing to stand for: in the Rust the invariant is a debug assertion of each call.
ghost use Rattle.std.specs.Prelude.{◌≡◌, cond, List, ℕ, length};
ghost use Rattle.meaning.specs.Limits.{max_names, max_edges};
ghost use Rattle.meaning.specs.BorrowGraph.{empty_graph, well_formed, new_name, mutable_of, contains_id, all_refs};
ghost use Rattle.meaning.specs.Refinement.Chain as C;
ghost use Rattle.meaning.specs.Refinement.Chain.{next_count};
ghost use Rattle.references.specs.Models.{row_of, names_in, edges_in};
ghost use Rattle.vm_status.specs.Models.{answer_of};
ghost use Rattle.borrow_graph.specs.Models.{graph_in, Tells, Answers, told_of};

use crate::refs::{ascend, holds, is_mutable_in, pair_ok, place};
use file_format::CodeOffset;
use meaning::{EDGE_WORDS, MAX_EDGE_SET_SIZE, MAX_EDGES, MAX_NAMES, insert_at, lesser};
use references::RefID;
use references::rows::{Row, child, is_blurred, is_strong, labels, lt, parent, side};
use references::words::name_word;
use std::cmp::Ordering;
use vm_status::Refusal;

// How many names and edges there are, and whether they are well formed: the answer to document 01's test for 9, kept so that it is tested
// once. `measure` makes one for any words.
#[derive(Clone, Copy)]
pub struct BorrowGraph {
    pub refs: usize,
    pub edges: usize,
    pub formed: bool,
}

// The lowest offsets among the empty-path borrows, among those that count, and among those that count with a mutable borrower; `None` where there
// is no such borrow.
#[derive(Clone, Copy)]
pub struct BorrowedBy {
    pub full: Option<CodeOffset>,
    pub consistent: Option<CodeOffset>,
    pub mutable: Option<CodeOffset>,
}

// No name, no edge, whatever the arrays hold.
pub fn new() -> BorrowGraph
    ensures { (ns : List ℕ) (es : List (List ℕ)) → length ns ≡ max_names → length es ≡ max_edges → Tells ns es result × (graph_in ns es result ≡ empty_graph) }
{
    BorrowGraph {
        refs: 0,
        edges: 0,
        formed: true,
    }
}

// How many edges of its pair there have been with x, which follows y as number `count` of its pair; 0 where x may not follow.
pub(crate) fn link(y: &Row, count: usize, x: &Row) -> usize
    ensures { result ≡ cond (C.link count (row_of y.now) (row_of x.now)) (next_count count (row_of y.now) (row_of x.now)) 0 }
{
    let p = parent(x);
    let c = child(x);
    let b = is_blurred(x);
    let o = side(y, p, c);
    match o {
        Ordering::Less => {
            let s = is_strong(x);
            let bare = !s & (labels(x) == 0);
            if !b | bare {
                return 1;
            }
            0
        }
        Ordering::Equal => {
            let d = is_blurred(y);
            let up = lt(y, x);
            if (count < MAX_EDGE_SET_SIZE) & (!(d | b) & up) {
                return count + 1;
            }
            0
        }
        Ordering::Greater => 0,
    }
}

// Document 01's test for refusal 9, in one pass.
pub(crate) fn well_formed(
    names: &[u32; MAX_NAMES],
    n: usize,
    edges: &[Row; MAX_EDGES],
    m: usize,
) -> bool
    ensures { length names.entry.now ≡ max_names → length edges.now ≡ max_edges → result ≡ well_formed (record { names = names_in names.entry.now n; edges = edges_in edges.now m }) }
{
    if !ascend(names, n) {
        return false;
    }
    // what stands before the first edge: no edge joins a name to itself
    let mut last = [0u32; EDGE_WORDS];
    let mut count: usize = 0;
    for x in &edges[..lesser(m, MAX_EDGES)] {
        let p = parent(x);
        let c = child(x);
        let h = pair_ok(names, n, p, c);
        let l = link(&last, count, x);
        if h & (0 < l) {
            last = *x;
            count = l;
        } else {
            return false;
        }
    }
    true
}

pub fn measure(
    names: &[u32; MAX_NAMES],
    n: usize,
    edges: &[Row; MAX_EDGES],
    m: usize,
) -> BorrowGraph
    ensures { length names.entry.now ≡ max_names → length edges.now ≡ max_edges → Tells names.entry.now edges.now result × (graph_in names.entry.now edges.now result ≡ record { names = names_in names.entry.now n; edges = edges_in edges.now m }) }
{
    let formed = well_formed(names, n, edges, m);
    BorrowGraph {
        refs: lesser(n, MAX_NAMES),
        edges: lesser(m, MAX_EDGES),
        formed,
    }
}

pub fn contains_id(names: &[u32; MAX_NAMES], g: BorrowGraph, id: RefID) -> Result<bool, Refusal>
    ensures { (es : List (List ℕ)) → Tells names.now es g → told_of result ≡ contains_id (graph_in names.now es g) id.0 }
{
    if g.formed {
        return Ok(holds(names, g.refs, id));
    }
    Err(Refusal::IllFormed)
}

// How many of the array's names there are.
pub fn all_refs(g: BorrowGraph) -> Result<usize, Refusal>
    ensures { (ns : List ℕ) (es : List (List ℕ)) → Tells ns es g → answer_of (names_in ns) result ≡ all_refs (graph_in ns es g) }
{
    if g.formed {
        return Ok(g.refs);
    }
    Err(Refusal::IllFormed)
}

pub fn is_mutable(names: &[u32; MAX_NAMES], g: BorrowGraph, id: RefID) -> Result<bool, Refusal>
    ensures { (es : List (List ℕ)) → Tells names.now es g → told_of result ≡ mutable_of (graph_in names.now es g) id.0 }
{
    let h = holds(names, g.refs, id);
    if g.formed & h {
        return Ok(is_mutable_in(names, g.refs, id));
    }
    Err(Refusal::IllFormed)
}

// 8 where the name is held, then 23 where 48 are; refused, names and graph are as they were.
pub fn new_ref(
    names: &mut [u32; MAX_NAMES],
    g: &mut BorrowGraph,
    id: RefID,
    mutable: bool,
) -> Result<(), Refusal>
    ensures { (es : List (List ℕ)) → Tells names.old es g.old → Answers (new_name (graph_in names.old es g.old) id.0 mutable) names.old es g.old names.new es g.new result }
{
    if !g.formed {
        return Err(Refusal::IllFormed);
    }
    if holds(names, g.refs, id) {
        return Err(Refusal::NameHeld);
    }
    if MAX_NAMES <= g.refs {
        return Err(Refusal::ManyNames);
    }
    let k = place(&names[..g.refs], id);
    let w = name_word(id, mutable);
    insert_at(names, g.refs, k, w);
    g.refs += 1;
    Ok(())
}
