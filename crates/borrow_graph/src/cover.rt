// Whether a graph covers another. Where each stands in the Rust (graph.rs):
//
//   here                           the Rust
//   leq                            284 `leq`
//   cover, covered_in, covers_at   288 `unmatched_edges`: whether it finds none
//   holds_all                      348 and 349, one half of the debug assertion on the names of a join
ghost use Rattle.std.specs.Prelude.{◌≡◌, length, map};
ghost use Rattle.meaning.specs.Limits.{max_names, max_edges};
ghost use Rattle.meaning.specs.Lists.{all};
ghost use Rattle.meaning.specs.BorrowGraph as G;
ghost use Rattle.meaning.specs.BorrowGraph.{covering};
ghost use Rattle.meaning.specs.Laws.Cover.{covers_at, covered_in};
ghost use Rattle.references.specs.Models.{row_of, names_in, edges_in};
ghost use Rattle.borrow_graph.specs.Models.{graph_in, Tells, told_of};

use crate::graph::BorrowGraph;
use crate::refs::holds;
use meaning::{MAX_EDGES, MAX_NAMES, lesser};
use references::rows;
use references::rows::{Row, child, parent};
use references::words::id_in;
use vm_status::Refusal;

pub fn holds_all(names: &[u32; MAX_NAMES], n: usize, names2: &[u32; MAX_NAMES], k: usize) -> bool
    ensures { length names.now ≡ max_names → length names2.now ≡ max_names → result ≡ all (λ m. G.holds (names_in names.now n) m.id) (names_in names2.now k) }
{
    names2[..lesser(k, MAX_NAMES)]
        .iter()
        .all(|w| holds(names, n, id_in(*w)))
}

// Whether y covers x, an edge of the same pair.
pub(crate) fn covers_at(x: &Row, y: &Row) -> bool
    ensures { result ≡ covers_at (row_of x.now) (row_of y.now) }
{
    (parent(x) == parent(y)) && (child(x) == child(y)) && rows::leq(y, x)
}

// Whether one of the edges covers x.
fn covered_in(edges: &[Row], x: &Row) -> bool
    ensures { result ≡ covered_in (map row_of edges.now) (row_of x.now) }
{
    edges.iter().any(|y| covers_at(x, y))
}

// Whether each edge of the other list is covered by one of its own pair here.
pub(crate) fn cover(edges: &[Row; MAX_EDGES], m: usize, edges2: &[Row; MAX_EDGES], k: usize) -> bool
    ensures { length edges.now ≡ max_edges → length edges2.now ≡ max_edges → result ≡ all (covered_in (edges_in edges.now m)) (edges_in edges2.now k) }
{
    let ours = &edges[..lesser(m, MAX_EDGES)];
    edges2[..lesser(k, MAX_EDGES)]
        .iter()
        .all(|x| covered_in(ours, x))
}

// 9 where the other has a name that this one lacks.
pub fn leq(
    names: &[u32; MAX_NAMES],
    edges: &[Row; MAX_EDGES],
    g: BorrowGraph,
    names2: &[u32; MAX_NAMES],
    edges2: &[Row; MAX_EDGES],
    h: BorrowGraph,
) -> Result<bool, Refusal>
    ensures { Tells names.now edges.now g → Tells names2.now edges2.now h → told_of result ≡ covering (graph_in names.now edges.now g) (graph_in names2.now edges2.now h) }
{
    let held = holds_all(names, g.refs, names2, h.refs);
    if g.formed & h.formed & held {
        return Ok(cover(edges, g.edges, edges2, h.edges));
    }
    Err(Refusal::IllFormed)
}
