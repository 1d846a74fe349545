// An edge put into the set of its pair (graph.rs, 142 `add_edge`).
ghost use Rattle.std.specs.Prelude.{◌≡◌, ℕ, Bool, List, ◌≤◌, length, IfOk};
ghost use Rattle.std.specs.Fn.{FnReturnsAt};
ghost use Rattle.meaning.specs.Limits.{max_edges};
ghost use Rattle.meaning.specs.Lists.{keep};
ghost use Rattle.meaning.specs.BorrowGraph.{GEdge};
ghost use Rattle.meaning.specs.Laws.Pair.{Neat};
ghost use Rattle.references.specs.Models.{row_of, edges_in};
ghost use Rattle.borrow_graph_edit.specs.Edits.{Added};

use crate::blurs::{Changed, blurs};
use crate::pairs::{between, place, replace};
use meaning::{MAX_EDGES, insert_at};
use references::rows::{Candidate, Row, child, parent, tagged};
use vm_status::Refusal;

// The rows that pass a test move to the front, in their order; how many they are. (By hand: it writes in the array that it reads, and an
// array has no `retain`.)
pub(crate) fn retain<F: Fn(&Row) -> bool>(edges: &mut [Row; MAX_EDGES], m: usize, test: F) -> usize
    requires { (m ≤ max_edges) × F.IsAlwaysCallable test }
    ensures { (result ≤ m) × ((q : GEdge → Bool) → ((x : List ℕ) (b : Bool) → FnReturnsAt F.Fn test x b → b ≡ q (row_of x)) → length edges.old ≡ max_edges → (length edges.new ≡ max_edges) × (edges_in edges.new result ≡ keep q (edges_in edges.old m))) }
{
    let mut j: usize = 0;
    for i in 0..m {
        if test(&edges[i]) {
            let x = edges[i];
            edges[j] = x;
            j += 1;
        }
    }
    j
}

// Into a set that has edges.
fn add_more(edges: &mut [Row; MAX_EDGES], m: usize, x: Row) -> Result<Changed, Refusal>
    requires { m ≤ max_edges }
    ensures { IfOk result (λ c. c.edges ≤ max_edges) × (length edges.old ≡ max_edges → Neat (edges_in edges.old m) → Added (row_of x) edges.old m edges.new result) }
{
    let p = parent(&x);
    let c = child(&x);
    let mut at = between(edges, m, p, c);
    let size = at.set.len();
    let report = at.set.insert(Candidate::Fits(x))?;
    if MAX_EDGES < m - size + at.set.len() {
        return Err(Refusal::ManyEdges);
    }
    Ok(Changed {
        edges: replace(edges, m, at.low, size, p, c, &at.set),
        blurred: blurs(report),
    })
}

// The first edge of a pair goes straight to its place. A refusal leaves the array as it was.
pub(crate) fn add_edge(edges: &mut [Row; MAX_EDGES], m: usize, x: Row) -> Result<Changed, Refusal>
    requires { m ≤ max_edges }
    ensures { IfOk result (λ c. c.edges ≤ max_edges) × (length edges.old ≡ max_edges → Neat (edges_in edges.old m) → Added (row_of x) edges.old m edges.new result) }
{
    let p = parent(&x);
    let c = child(&x);
    let at = place(edges, m, p, c);
    if 0 < at.size {
        return add_more(edges, m, x);
    }
    if MAX_EDGES <= m {
        return Err(Refusal::ManyEdges);
    }
    let row = tagged(&x, p, c, false);
    insert_at(edges, m, at.low, row);
    Ok(Changed {
        edges: m + 1,
        blurred: 0,
    })
}
