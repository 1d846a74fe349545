// The look-ups of borrows and of edges. Where each stands in the Rust (graph.rs):
//
//   here            the Rust
//   borrowed_by     48 `borrowed_by`, with what its callers ask of the two maps; of the locations in them, the lowest
//   between_edges   71 `between_edges`
//   out_edges       80 `out_edges`
//   in_edges        93 `in_edges`
ghost use Rattle.std.specs.Prelude.{◌≡◌, List, ℕ, ◌≤◌, length};
ghost use Rattle.meaning.specs.Limits.{max_names, max_edges};
ghost use Rattle.meaning.specs.Lists.{keep};
ghost use Rattle.meaning.specs.BorrowGraph.{of_name, borrowed_by, out_edges, in_edges, between_edges};
ghost use Rattle.references.specs.Models.{row_of, names_in, edges_in, filter_of};
ghost use Rattle.vm_status.specs.Models.{answer_of};
ghost use Rattle.borrow_graph.specs.Models.{graph_in, Tells, low_in, borrows_of, borrowed_of};
ghost use Rattle.borrow_graph.specs.Models as M;
ghost use Rattle.borrow_graph.specs.Folds.{no_borrows, lower_if, add_borrow, borrows_in};

use crate::graph::{BorrowGraph, BorrowedBy};
use crate::refs::{holds, is_mutable_in};
use file_format::CodeOffset;
use meaning::{MAX_EDGES, MAX_NAMES, lesser};
use paths::Label;
use references::RefID;
use references::rows::{Row, child, labels, meets, offset, parent};
use vm_status::Refusal;

// The edges that are looked up: those from a name, to a name, or between two.
#[derive(Clone, Copy)]
pub(crate) enum Ends {
    From(RefID),
    To(RefID),
    Between(RefID, RefID),
}

// The lower of two offsets, if the second counts.
fn lower(lowest: Option<CodeOffset>, counts: bool, loc: CodeOffset) -> Option<CodeOffset>
    ensures { low_in result ≡ lower_if counts loc.0 (low_in lowest) }
{
    if !counts {
        return lowest;
    }
    match lowest {
        Some(l) if l < loc => Some(l),
        _ => Some(loc),
    }
}

// One borrow more.
pub(crate) fn add(
    found: BorrowedBy,
    names: &[u32; MAX_NAMES],
    n: usize,
    x: &Row,
    at: Option<Label>,
) -> BorrowedBy
    ensures { length names.now ≡ max_names → borrows_of result ≡ add_borrow (names_in names.now n) (filter_of at) (borrows_of found) (row_of x.now) }
{
    let bare = labels(x) == 0;
    let counts = meets(x, at);
    let c = child(x);
    let writes = is_mutable_in(names, n, c);
    let loc = offset(x);
    BorrowedBy {
        full: lower(found.full, bare, loc),
        consistent: lower(found.consistent, counts, loc),
        mutable: lower(found.mutable, counts & writes, loc),
    }
}

pub(crate) fn borrows(
    names: &[u32; MAX_NAMES],
    n: usize,
    edges: &[Row; MAX_EDGES],
    m: usize,
    id: RefID,
    at: Option<Label>,
) -> BorrowedBy
    ensures { length names.now ≡ max_names → length edges.now ≡ max_edges → borrows_of result ≡ borrows_in (names_in names.now n) id.0 (filter_of at) no_borrows (edges_in edges.now m) }
{
    let mut found = BorrowedBy {
        full: None,
        consistent: None,
        mutable: None,
    };
    for x in &edges[..lesser(m, MAX_EDGES)] {
        if id == parent(x) {
            found = add(found, names, n, x, at);
        }
    }
    found
}

pub fn borrowed_by(
    names: &[u32; MAX_NAMES],
    edges: &[Row; MAX_EDGES],
    g: BorrowGraph,
    id: RefID,
    at: Option<Label>,
) -> Result<BorrowedBy, Refusal>
    ensures { Tells names.now edges.now g → borrowed_of result ≡ borrowed_by (graph_in names.now edges.now g) id.0 (filter_of at) }
{
    let h = holds(names, g.refs, id);
    if g.formed & h {
        return Ok(borrows(names, g.refs, edges, g.edges, id, at));
    }
    Err(Refusal::IllFormed)
}

impl Ends {
    pub(crate) fn picks(self, parent: RefID, child: RefID) -> bool
        ensures { result ≡ M.picks self parent.0 child.0 }
    {
        match self {
            Ends::From(p) => p == parent,
            Ends::To(c) => c == child,
            Ends::Between(p, c) => (p == parent) & (c == child),
        }
    }
}

// The edges that are looked up go into `out`; how many there are.
pub(crate) fn select(
    edges: &[Row; MAX_EDGES],
    m: usize,
    ends: Ends,
    out: &mut [Row; MAX_EDGES],
) -> usize
    ensures { length edges.now ≡ max_edges → length out.old ≡ max_edges → (edges_in out.new result ≡ keep (λ x. M.picks ends x.parent x.child) (edges_in edges.now m)) × (length out.new ≡ max_edges) × (result ≤ max_edges) }
{
    let mut found = 0;
    for x in &edges[..lesser(m, MAX_EDGES)] {
        if ends.picks(parent(x), child(x)) {
            out[found] = *x;
            found += 1;
        }
    }
    found
}

// The edges at a name.
pub(crate) fn edges_at(
    names: &[u32; MAX_NAMES],
    edges: &[Row; MAX_EDGES],
    g: BorrowGraph,
    id: RefID,
    ends: Ends,
    out: &mut [Row; MAX_EDGES],
) -> Result<usize, Refusal>
    ensures { Tells names.now edges.now g → length out.old ≡ max_edges → answer_of (edges_in out.new) result ≡ of_name (graph_in names.now edges.now g) id.0 (keep (λ x. M.picks ends x.parent x.child) (edges_in edges.now g.edges)) }
{
    let h = holds(names, g.refs, id);
    if g.formed & h {
        return Ok(select(edges, g.edges, ends, out));
    }
    Err(Refusal::IllFormed)
}

pub fn out_edges(
    names: &[u32; MAX_NAMES],
    edges: &[Row; MAX_EDGES],
    g: BorrowGraph,
    id: RefID,
    out: &mut [Row; MAX_EDGES],
) -> Result<usize, Refusal>
    ensures { Tells names.now edges.now g → length out.old ≡ max_edges → answer_of (edges_in out.new) result ≡ out_edges (graph_in names.now edges.now g) id.0 }
{
    let ends = Ends::From(id);
    edges_at(names, edges, g, id, ends, out)
}

pub fn in_edges(
    names: &[u32; MAX_NAMES],
    edges: &[Row; MAX_EDGES],
    g: BorrowGraph,
    id: RefID,
    out: &mut [Row; MAX_EDGES],
) -> Result<usize, Refusal>
    ensures { Tells names.now edges.now g → length out.old ≡ max_edges → answer_of (edges_in out.new) result ≡ in_edges (graph_in names.now edges.now g) id.0 }
{
    let ends = Ends::To(id);
    edges_at(names, edges, g, id, ends, out)
}

// 9 where the pair has no edge.
pub fn between_edges(
    edges: &[Row; MAX_EDGES],
    g: BorrowGraph,
    parent: RefID,
    child: RefID,
    out: &mut [Row; MAX_EDGES],
) -> Result<usize, Refusal>
    ensures { (ns : List ℕ) → Tells ns edges.now g → length out.old ≡ max_edges → answer_of (edges_in out.new) result ≡ between_edges (graph_in ns edges.now g) parent.0 child.0 }
{
    let ends = Ends::Between(parent, child);
    let n = select(edges, g.edges, ends, out);
    let none = n == 0;
    if g.formed & !none {
        return Ok(n);
    }
    Err(Refusal::IllFormed)
}
