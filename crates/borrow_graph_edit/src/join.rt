// The join of two graphs of the same names: the other's edges that ours do not cover are put in. What is covered is judged by our rows as
// they were before the join: `ours`, beside the rows that change. Where each stands in the Rust (graph.rs):
//
//   here         the Rust
//   join         345 `join`
//   joinable     346 to 349, the debug assertions at its start
//   join_pairs   352, the loop over parents and children
//   join_sets    288 `unmatched_edges` for one pair, and 354, the loop over its edges
ghost use Rattle.std.specs.Prelude.{◌≡◌, true, ◌&&◌, List, [], ◌∷◌, ℕ, ◌≤◌, length, IfOk};
ghost use Rattle.meaning.specs.Limits.{max_edges};
ghost use Rattle.meaning.specs.BorrowGraph as G;
ghost use Rattle.meaning.specs.BorrowGraph.{join_graphs};
ghost use Rattle.meaning.specs.Laws.Graph.{insert_all};
ghost use Rattle.meaning.specs.Refinement.Pairs.{loop_at, replace_lim, two_pass};
ghost use Rattle.meaning.specs.Laws.Pair.{Neat};
ghost use Rattle.meaning.specs.Refinement.Passes.{uncovered, join_set, pairs_from};
ghost use Rattle.references.specs.Models.{edges_in, set_of};
ghost use Rattle.borrow_graph.specs.Models.{graph_in, Tells};
ghost use Rattle.borrow_graph_edit.specs.Models.{replaced_in, filled_in, Blurs};

use crate::blurs::settled;
use crate::pairs::{replace_set, set_between, two_passes};
use borrow_graph::cover::holds_all;
use borrow_graph::graph::BorrowGraph;
use meaning::{MAX_EDGES, MAX_NAMES};
use references::RefID;
use references::rows::{Candidate, Row, child, parent};
use references::set::BorrowEdgeSet;
use vm_status::Refusal;

// Our set with the edges of theirs that it does not cover as it is. Refused, what it holds is free.
fn join_sets(ours: &mut BorrowEdgeSet, theirs: &BorrowEdgeSet) -> Result<(), Refusal>
    ensures { filled_in ours.new result ≡ insert_all (uncovered (set_of ours.old).edges (set_of theirs.now).edges) (set_of ours.old) }
{
    let old = *ours;
    for x in theirs.rows() {
        if !old.covers(x) {
            ours.insert(Candidate::Fits(*x))?;
        }
    }
    Ok(())
}

fn join_pair(
    edges: &mut [Row; MAX_EDGES],
    m: usize,
    ours: &[Row; MAX_EDGES],
    k: usize,
    theirs: &[Row; MAX_EDGES],
    n: usize,
    parent: RefID,
    child: RefID,
    shrinking: bool,
) -> Result<usize, Refusal>
    requires { (m ≤ max_edges) × (k ≤ max_edges) × (n ≤ max_edges) }
    ensures { IfOk result (λ n. n ≤ max_edges) × (length edges.old ≡ max_edges → length ours.now ≡ max_edges → length theirs.now ≡ max_edges →
        Neat (edges_in edges.old m) → Neat (edges_in ours.now k) → Neat (edges_in theirs.now n) → (length edges.new ≡ max_edges)
        × (replaced_in edges.new result ≡ replace_lim shrinking (join_set (edges_in ours.now k) (edges_in theirs.now n)) (record { parent = parent.0; child = child.0 } ∷ []) (edges_in edges.old m))) }
{
    let mut x = set_between(ours, k, parent, child);
    let y = set_between(theirs, n, parent, child);
    join_sets(&mut x, &y)?;
    replace_set(edges, m, parent, child, &x, shrinking)
}

// Each pair of theirs.
fn join_pairs(
    edges: &mut [Row; MAX_EDGES],
    m: usize,
    ours: &[Row; MAX_EDGES],
    k: usize,
    theirs: &[Row; MAX_EDGES],
    n: usize,
    shrinking: bool,
) -> Result<usize, Refusal>
    requires { (m ≤ max_edges) × (k ≤ max_edges) × (n ≤ max_edges) }
    ensures { IfOk result (λ n. n ≤ max_edges) × (length edges.old ≡ max_edges → length ours.now ≡ max_edges → length theirs.now ≡ max_edges →
        Neat (edges_in edges.old m) → Neat (edges_in ours.now k) → Neat (edges_in theirs.now n) → (length edges.new ≡ max_edges)
        × (replaced_in edges.new result ≡ replace_lim shrinking (join_set (edges_in ours.now k) (edges_in theirs.now n)) (pairs_from (loop_at 0) (edges_in theirs.now n)) (edges_in edges.old m))) }
{
    let mut count = m;
    let mut prior_parent = RefID(0);
    let mut prior_child = RefID(0);
    for x in &theirs[..n] {
        let p = parent(x);
        let c = child(x);
        if !((prior_parent == p) & (prior_child == c)) {
            count = join_pair(edges, count, ours, k, theirs, n, p, c, shrinking)?;
            prior_parent = p;
            prior_child = c;
        }
    }
    Ok(count)
}

// Every pair of theirs, in as many passes as it takes.
fn join_all(
    edges: &mut [Row; MAX_EDGES],
    ours: &[Row; MAX_EDGES],
    k: usize,
    theirs: &[Row; MAX_EDGES],
    n: usize,
) -> Result<usize, Refusal>
    requires { (k ≤ max_edges) × (n ≤ max_edges) }
    ensures { IfOk result (λ n. n ≤ max_edges) × (edges.old ≡ ours.now → length ours.now ≡ max_edges → length theirs.now ≡ max_edges →
        Neat (edges_in ours.now k) → Neat (edges_in theirs.now n) → (length edges.new ≡ max_edges)
        × (replaced_in edges.new result ≡ two_pass (join_set (edges_in ours.now k) (edges_in theirs.now n)) (pairs_from (loop_at 0) (edges_in theirs.now n)) (edges_in ours.now k))) }
{
    two_passes(
        edges,
        k,
        |e| {
            *e = *ours;
            k
        },
        |e, m, shrinking| join_pairs(e, m, ours, k, theirs, n, shrinking),
    )
}

// Two graphs with the same names.
fn joinable(
    names: &[u32; MAX_NAMES],
    graph: BorrowGraph,
    their_names: &[u32; MAX_NAMES],
    other: BorrowGraph,
) -> bool
    ensures { (es es₂ : List (List ℕ)) → Tells names.now es graph → Tells their_names.now es₂ other →
        result ≡ ((G.well_formed (graph_in names.now es graph) && G.well_formed (graph_in their_names.now es₂ other)) && G.same_names (graph_in names.now es graph) (graph_in their_names.now es₂ other)) }
{
    let a = holds_all(their_names, other.refs, names, graph.refs);
    let b = holds_all(names, graph.refs, their_names, other.refs);
    (graph.formed & other.formed) & (a & b)
}

// How many sets are blurred by it; refused, edges and graph are as they were. 9 where the names differ; 21 for more than 96 edges in the end. The
// counts are tested so that no row past the array is asked for: a graph has no more.
pub fn join(
    names: &[u32; MAX_NAMES],
    edges: &mut [Row; MAX_EDGES],
    graph: &mut BorrowGraph,
    their_names: &[u32; MAX_NAMES],
    their_edges: &[Row; MAX_EDGES],
    other: BorrowGraph,
) -> Result<u8, Refusal>
    ensures { Tells names.now edges.old graph.old → Tells their_names.now their_edges.now other →
        Blurs (join_graphs (graph_in names.now edges.old graph.old) (graph_in their_names.now their_edges.now other))
        names.now edges.old graph.old names.now edges.new graph.new result }
{
    let few = (graph.edges <= MAX_EDGES) & (other.edges <= MAX_EDGES);
    let same = joinable(names, *graph, their_names, other);
    if !(few & same) {
        return Err(Refusal::IllFormed);
    }
    let old = *edges;
    let r = join_all(edges, &old, graph.edges, their_edges, other.edges);
    let c = settled(edges, &old, graph.edges, r)?;
    graph.edges = c.edges;
    Ok(c.blurred)
}
