// Borrows: the weak borrow, and the strong one, which moves what is borrowed below it. Where each stands in the Rust (graph.rs):
//
//   here                the Rust
//   add_strong_borrow   109 `add_strong_borrow` and 114 `add_strong_field_borrow`
//   add_weak_borrow     126 `add_weak_borrow` and 132 `add_weak_field_borrow`
//   factor              167 `factor`
//   take_out            its first loops, 171 to 197
//   add_moved           its last loop, 199 to 208
ghost use Rattle.std.specs.Prelude.{◌≡◌, true, not, ◌&&◌, List, ◌+◌, ◌≤◌, eqb, length, IfOk, IsOkAnd};
ghost use Rattle.meaning.specs.Limits.{max_edges};
ghost use Rattle.meaning.specs.Lists.{any, all, keep};
ghost use Rattle.meaning.specs.BorrowGraph.{Name, well_formed, pair_ok, borrow_weak, borrow_strong, moves};
ghost use Rattle.meaning.specs.Laws.Put.{Moved};
ghost use Rattle.references.specs.Models.{row_of, edges_in, path_at};
ghost use Rattle.borrow_graph.specs.Models.{graph_in, Tells};
ghost use Rattle.vm_status.specs.Models.{answer_of};
ghost use Rattle.borrow_graph_edit.specs.Edits.{graph_with, Edits};
ghost use Rattle.borrow_graph_edit.specs.Models.{Blurs};

use crate::blurs::{Changed, settled};
use crate::edges::{add_edge, retain};
use borrow_graph::graph::BorrowGraph;
use borrow_graph::refs;
use file_format::CodeOffset;
use meaning::{MAX_EDGES, MAX_NAMES};
use paths::Label;
use references::rows::Row;
use references::{RefID, rows};
use vm_status::Refusal;

// Whether a strong borrow of `parent` moves this row.
fn is_moved(x: &Row, parent: RefID, path: Option<Label>) -> bool
    ensures { result ≡ moves parent.0 (path_at path) (row_of x.now) }
{
    parent == rows::parent(x) && rows::starts_with(x, path)
}

// Whether a strong borrow moves an edge.
fn any_moves(edges: &[Row; MAX_EDGES], m: usize, parent: RefID, path: Option<Label>) -> bool
    requires { m ≤ max_edges }
    ensures { length edges.now ≡ max_edges → result ≡ any (moves parent.0 (path_at path)) (edges_in edges.now m) }
{
    edges[..m].iter().any(|x| is_moved(x, parent, path))
}

// Whether none of the edges that a strong borrow moves ends at the child.
fn none_ends_at(
    edges: &[Row; MAX_EDGES],
    m: usize,
    parent: RefID,
    path: Option<Label>,
    child: RefID,
) -> bool
    requires { m ≤ max_edges }
    ensures { length edges.now ≡ max_edges → result ≡ all (λ x. not (eqb child.0 x.child)) (keep (moves parent.0 (path_at path)) (edges_in edges.now m)) }
{
    !edges[..m]
        .iter()
        .any(|x| is_moved(x, parent, path) & (child == rows::child(x)))
}

// The rows that a strong borrow moves are taken out.
fn take_out(edges: &mut [Row; MAX_EDGES], m: usize, parent: RefID, path: Option<Label>) -> usize
    requires { m ≤ max_edges }
    ensures { (result ≤ m) × (length edges.old ≡ max_edges → (length edges.new ≡ max_edges) × (edges_in edges.new result ≡ keep (λ x. not (moves parent.0 (path_at path) x)) (edges_in edges.old m))) }
{
    retain(edges, m, |x| !is_moved(x, parent, path))
}

// The moved rows, each put in below the child. There is room for all of them.
fn add_moved(
    edges: &mut [Row; MAX_EDGES],
    k: usize,
    old: &[Row; MAX_EDGES],
    m: usize,
    parent: RefID,
    path: Option<Label>,
    child: RefID,
) -> Result<usize, Refusal>
    requires { (k ≤ max_edges) × (m ≤ max_edges) }
    ensures { IfOk result (λ n. n ≤ max_edges) × (length edges.old ≡ max_edges → length old.now ≡ max_edges → (ns : List Name) → well_formed (graph_with ns (edges_in edges.old k)) ≡ true → k + length (keep (moves parent.0 (path_at path)) (edges_in old.now m)) ≤ max_edges → all (λ y. pair_ok ns child.0 y.child) (keep (moves parent.0 (path_at path)) (edges_in old.now m)) ≡ true → (length edges.new ≡ max_edges) × IsOkAnd result (λ n. Moved (graph_with ns (edges_in edges.old k)) child.0 (path_at path) (keep (moves parent.0 (path_at path)) (edges_in old.now m)) (graph_with ns (edges_in edges.new n)))) }
{
    let mut n = k;
    for i in 0..m {
        if is_moved(&old[i], parent, path) {
            let x = rows::factor(&old[i], path, child);
            n = add_edge(edges, n, x)?.edges;
        }
    }
    Ok(n)
}

// The edges that a strong borrow moves, and then its own.
fn move_below(
    edges: &mut [Row; MAX_EDGES],
    old: &[Row; MAX_EDGES],
    m: usize,
    loc: CodeOffset,
    parent: RefID,
    path: Option<Label>,
    child: RefID,
) -> Result<usize, Refusal>
    requires { m ≤ max_edges }
    ensures { IfOk result (λ n. n ≤ max_edges) × (edges.old ≡ old.now → length old.now ≡ max_edges → (ns : List Name) → well_formed (graph_with ns (edges_in old.now m)) && pair_ok ns parent.0 child.0 ≡ true → all (λ x. not (eqb child.0 x.child)) (keep (moves parent.0 (path_at path)) (edges_in old.now m)) ≡ true → (length edges.new ≡ max_edges) × (answer_of (λ n. graph_with ns (edges_in edges.new n)) result ≡ borrow_strong (graph_with ns (edges_in old.now m)) parent.0 (path_at path) child.0 loc.0)) }
{
    let k = take_out(edges, m, parent, path);
    let n = add_moved(edges, k, old, m, parent, path, child)?;
    let x = rows::edge(loc, parent, true, path, child);
    Ok(add_edge(edges, n, x)?.edges)
}

// A strong borrow that moves edges: 9 where one of them ends at the child.
fn factor_below(
    edges: &mut [Row; MAX_EDGES],
    m: usize,
    loc: CodeOffset,
    parent: RefID,
    path: Option<Label>,
    child: RefID,
) -> Result<Changed, Refusal>
    requires { m ≤ max_edges }
    ensures { IfOk result (λ c. c.edges ≤ max_edges) × (length edges.old ≡ max_edges → (ns : List Name) → well_formed (graph_with ns (edges_in edges.old m)) && pair_ok ns parent.0 child.0 ≡ true → Edits (borrow_strong (graph_with ns (edges_in edges.old m)) parent.0 (path_at path) child.0 loc.0) ns edges.old m edges.new result) }
{
    if !none_ends_at(edges, m, parent, path, child) {
        return Err(Refusal::IllFormed);
    }
    let old = *edges;
    let r = move_below(edges, &old, m, loc, parent, path, child);
    settled(edges, &old, m, r)
}

// A strong borrow between two names that are held.
fn factor(
    edges: &mut [Row; MAX_EDGES],
    m: usize,
    loc: CodeOffset,
    parent: RefID,
    path: Option<Label>,
    child: RefID,
) -> Result<Changed, Refusal>
    requires { m ≤ max_edges }
    ensures { IfOk result (λ c. c.edges ≤ max_edges) × (length edges.old ≡ max_edges → (ns : List Name) → well_formed (graph_with ns (edges_in edges.old m)) && pair_ok ns parent.0 child.0 ≡ true → Edits (borrow_strong (graph_with ns (edges_in edges.old m)) parent.0 (path_at path) child.0 loc.0) ns edges.old m edges.new result) }
{
    if any_moves(edges, m, parent, path) {
        return factor_below(edges, m, loc, parent, path, child);
    }
    let x = rows::edge(loc, parent, true, path, child);
    add_edge(edges, m, x)
}

// How many sets are blurred by it; refused, edges and graph are as they were. 9 where the graph is not well formed, a name is missing, or parent
// and child are the same. (A well-formed graph's count is within the limit; that test is for other structs.)
pub fn add_strong_borrow(
    names: &[u32; MAX_NAMES],
    edges: &mut [Row; MAX_EDGES],
    g: &mut BorrowGraph,
    loc: CodeOffset,
    parent: RefID,
    path: Option<Label>,
    child: RefID,
) -> Result<u8, Refusal>
    ensures { Tells names.now edges.old g.old → Blurs (borrow_strong (graph_in names.now edges.old g.old) parent.0 (path_at path) child.0 loc.0) names.now edges.old g.old names.now edges.new g.new result }
{
    if !(g.formed & refs::pair_ok(names, g.refs, parent, child) & (g.edges <= MAX_EDGES)) {
        return Err(Refusal::IllFormed);
    }
    let c = factor(edges, g.edges, loc, parent, path, child)?;
    g.edges = c.edges;
    Ok(c.blurred)
}

pub fn add_weak_borrow(
    names: &[u32; MAX_NAMES],
    edges: &mut [Row; MAX_EDGES],
    g: &mut BorrowGraph,
    loc: CodeOffset,
    parent: RefID,
    path: Option<Label>,
    child: RefID,
) -> Result<u8, Refusal>
    ensures { Tells names.now edges.old g.old → Blurs (borrow_weak (graph_in names.now edges.old g.old) parent.0 (path_at path) child.0 loc.0) names.now edges.old g.old names.now edges.new g.new result }
{
    if !(g.formed & refs::pair_ok(names, g.refs, parent, child) & (g.edges <= MAX_EDGES)) {
        return Err(Refusal::IllFormed);
    }
    let x = rows::edge(loc, parent, false, path, child);
    let c = add_edge(edges, g.edges, x)?;
    g.edges = c.edges;
    Ok(c.blurred)
}
