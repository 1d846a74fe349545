// A name is taken out; each way through it stays as an edge. Where each stands in the Rust (graph.rs):
//
//   here                                   the Rust
//   release                                226 `release`
//   release_through                        its loops over the parents and the children, 233 to 248
//   splice_pair, splice_each, splice_one   256 `splice_out_intermediate`
//   without, left_out                      232, 235 and 249 to 252: what has the name is taken away
ghost use Rattle.std.specs.Prelude.{◌≡◌, true, ◌&&◌, not, List, [], ◌∷◌, map, ◌≤◌, length, IfOk, IfSome};
ghost use Rattle.meaning.specs.Limits.{max_edges};
ghost use Rattle.meaning.specs.Lists.{keep};
ghost use Rattle.meaning.specs.BorrowGraph as G;
ghost use Rattle.meaning.specs.Laws.Graph.{insert_all};
ghost use Rattle.meaning.specs.Refinement.Pairs.{across, replace_lim, two_pass};
ghost use Rattle.meaning.specs.Laws.Pair.{Neat};
ghost use Rattle.meaning.specs.Refinement.Passes.{apart, splices, splice_set, child_row, splice_pairs};
ghost use Rattle.references.specs.Models.{row_of, edges_in, set_of};
ghost use Rattle.vm_status.specs.Models.{answer_of};
ghost use Rattle.borrow_graph.specs.Models.{graph_in, Tells};
ghost use Rattle.borrow_graph_edit.specs.Models.{replaced_in, filled_in, Blurs};
ghost use Rattle.borrow_graph_edit.specs.Edits.{graph_with, Edits};
ghost use Rattle.borrow_graph_edit.specs.Ways.{entering, leaving, ways, Within, Found, one_more, put_of};

use crate::blurs::{Changed, settled};
use crate::edges::{add_edge, retain};
use crate::pairs::{replace_set, set_between, two_passes};
use borrow_graph::graph::BorrowGraph;
use borrow_graph::refs;
use meaning::{MAX_EDGES, MAX_NAMES};
use references::rows::{Candidate, Row};
use references::set::BorrowEdgeSet;
use references::{RefID, rows};
use vm_status::Refusal;

// The set with one parent edge spliced with each child edge. Refused, what it holds is free.
fn splice_one(
    set: &mut BorrowEdgeSet,
    parent: &Row,
    children: &BorrowEdgeSet,
) -> Result<(), Refusal>
    ensures { filled_in set.new result ≡ insert_all (map (G.splice (row_of parent.now).edge) (set_of children.now).edges) (set_of set.old) }
{
    for y in children.rows() {
        set.insert(rows::splice(parent, y))?;
    }
    Ok(())
}

// The set with each parent edge spliced with each child edge. Refused, what it holds is free.
fn splice_each(
    set: &mut BorrowEdgeSet,
    parents: &BorrowEdgeSet,
    children: &BorrowEdgeSet,
) -> Result<(), Refusal>
    ensures { filled_in set.new result ≡ insert_all (splices (set_of parents.now).edges (set_of children.now).edges) (set_of set.old) }
{
    for x in parents.rows() {
        splice_one(set, x, children)?;
    }
    Ok(())
}

// A pair's set with the ways through `id`.
fn spliced(
    edges: &[Row; MAX_EDGES],
    m: usize,
    parent: RefID,
    id: RefID,
    child: RefID,
) -> Result<BorrowEdgeSet, Refusal>
    requires { m ≤ max_edges }
    ensures { length edges.now ≡ max_edges → Neat (edges_in edges.now m) → answer_of set_of result ≡ splice_set (edges_in edges.now m) id.0 parent.0 child.0 }
{
    let parents = set_between(edges, m, parent, id);
    let children = set_between(edges, m, id, child);
    let mut set = set_between(edges, m, parent, child);
    splice_each(&mut set, &parents, &children)?;
    Ok(set)
}

// No way leads from a name to itself.
fn splice_pair(
    edges: &mut [Row; MAX_EDGES],
    k: usize,
    old: &[Row; MAX_EDGES],
    m: usize,
    parent: RefID,
    id: RefID,
    child: RefID,
    shrinking: bool,
) -> Result<usize, Refusal>
    requires { (k ≤ max_edges) × (m ≤ max_edges) }
    ensures { IfOk result (λ n. n ≤ max_edges) × (length edges.old ≡ max_edges → length old.now ≡ max_edges → Neat (edges_in edges.old k) → Neat (edges_in old.now m) → (length edges.new ≡ max_edges) × (replaced_in edges.new result ≡ replace_lim shrinking (splice_set (edges_in old.now m) id.0) (across (record { parent = parent.0; child = id.0 }) (record { parent = id.0; child = child.0 })) (edges_in edges.old k))) }
{
    if parent == child {
        return Ok(k);
    }
    let set = spliced(old, m, parent, id, child)?;
    replace_set(edges, k, parent, child, &set, shrinking)
}

// One parent with each child. (`splice_rows` walks alike, and `join_pairs` in join.rt: by another test of a row, and with another step.)
fn splice_row(
    edges: &mut [Row; MAX_EDGES],
    k: usize,
    old: &[Row; MAX_EDGES],
    m: usize,
    parent: RefID,
    id: RefID,
    shrinking: bool,
) -> Result<usize, Refusal>
    requires { (k ≤ max_edges) × (m ≤ max_edges) }
    ensures { IfOk result (λ n. n ≤ max_edges) × (length edges.old ≡ max_edges → length old.now ≡ max_edges → Neat (edges_in edges.old k) → Neat (edges_in old.now m) → (length edges.new ≡ max_edges) × (replaced_in edges.new result ≡ replace_lim shrinking (splice_set (edges_in old.now m) id.0) (child_row (edges_in old.now m) id.0 (record { parent = parent.0; child = id.0 })) (edges_in edges.old k))) }
{
    let mut n = k;
    let mut last = id;
    for x in &old[..m] {
        let p = rows::parent(x);
        let c = rows::child(x);
        if (id == p) & !(last == c) {
            n = splice_pair(edges, n, old, m, parent, id, c, shrinking)?;
            last = c;
        }
    }
    Ok(n)
}

// Each parent with each child.
fn splice_rows(
    edges: &mut [Row; MAX_EDGES],
    k: usize,
    old: &[Row; MAX_EDGES],
    m: usize,
    id: RefID,
    shrinking: bool,
) -> Result<usize, Refusal>
    requires { (k ≤ max_edges) × (m ≤ max_edges) }
    ensures { IfOk result (λ n. n ≤ max_edges) × (length edges.old ≡ max_edges → length old.now ≡ max_edges → Neat (edges_in edges.old k) → Neat (edges_in old.now m) → (length edges.new ≡ max_edges) × (replaced_in edges.new result ≡ replace_lim shrinking (splice_set (edges_in old.now m) id.0) (splice_pairs (edges_in old.now m) id.0) (edges_in edges.old k))) }
{
    let mut n = k;
    let mut last = id;
    for x in &old[..m] {
        let p = rows::parent(x);
        let c = rows::child(x);
        if (id == c) & !(last == p) {
            n = splice_row(edges, n, old, m, p, id, shrinking)?;
            last = p;
        }
    }
    Ok(n)
}

// Whether a row's edge touches a name.
fn touches(x: &Row, id: RefID) -> bool
    ensures { not result ≡ apart id.0 (row_of x.now) }
{
    (id == rows::parent(x)) | (id == rows::child(x))
}

// The rows that touch a name are left out.
fn left_out(edges: &mut [Row; MAX_EDGES], m: usize, id: RefID) -> usize
    requires { m ≤ max_edges }
    ensures { (result ≤ max_edges) × (length edges.old ≡ max_edges → (length edges.new ≡ max_edges) × (edges_in edges.new result ≡ keep (apart id.0) (edges_in edges.old m))) }
{
    retain(edges, m, |x| !touches(x, id))
}

// The rows of `old` that do not touch a name.
fn without(edges: &mut [Row; MAX_EDGES], old: &[Row; MAX_EDGES], m: usize, id: RefID) -> usize
    requires { m ≤ max_edges }
    ensures { (result ≤ max_edges) × (length edges.old ≡ max_edges → length old.now ≡ max_edges → (length edges.new ≡ max_edges) × (edges_in edges.new result ≡ keep (apart id.0) (edges_in old.now m))) }
{
    *edges = *old;
    left_out(edges, m, id)
}

// Every parent with each child, in as many passes as it takes.
fn splice_all(
    edges: &mut [Row; MAX_EDGES],
    old: &[Row; MAX_EDGES],
    m: usize,
    id: RefID,
) -> Result<usize, Refusal>
    requires { m ≤ max_edges }
    ensures { IfOk result (λ n. n ≤ max_edges) × (length edges.old ≡ max_edges → length old.now ≡ max_edges → Neat (keep (apart id.0) (edges_in old.now m)) → Neat (edges_in old.now m) → (length edges.new ≡ max_edges) × (replaced_in edges.new result ≡ two_pass (splice_set (edges_in old.now m) id.0) (splice_pairs (edges_in old.now m) id.0) (keep (apart id.0) (edges_in old.now m)))) }
{
    let k = without(edges, old, m, id);
    two_passes(
        edges,
        k,
        |e| without(e, old, m, id),
        |e, k, shrinking| splice_rows(e, k, old, m, id, shrinking),
    )
}

// A release with ways through the name.
fn release_through(edges: &mut [Row; MAX_EDGES], m: usize, id: RefID) -> Result<Changed, Refusal>
    requires { m ≤ max_edges }
    ensures { IfOk result (λ c. c.edges ≤ max_edges) × (length edges.old ≡ max_edges → (ns : List G.Name) → G.well_formed (graph_with ns (edges_in edges.old m)) && G.holds ns id.0 ≡ true → Edits (G.release (graph_with ns (edges_in edges.old m)) id.0) (keep (G.other id.0) ns) edges.old m edges.new result) }
{
    let old = *edges;
    let r = splice_all(edges, &old, m, id);
    settled(edges, &old, m, r)
}

// The edges on one side of a name: none, a single one in this row, or several.
#[derive(Clone, Copy)]
pub(crate) enum Side {
    Empty,
    Single(usize),
    Several,
}

// The edges to a name, and from it.
#[derive(Clone, Copy)]
pub(crate) struct Touching {
    pub to: Side,
    pub from: Side,
}

// One more edge on a side, in row i.
fn one_more(s: Side, i: usize) -> Side
    ensures { result ≡ one_more s i }
{
    match s {
        Side::Empty => Side::Single(i),
        Side::Single(_) => Side::Several,
        Side::Several => Side::Several,
    }
}

// An edge from the name to itself counts as several from it.
fn touching_edges(edges: &[Row; MAX_EDGES], m: usize, id: RefID) -> Touching
    requires { m ≤ max_edges }
    ensures { Within result.to × Within result.from × (length edges.now ≡ max_edges → Found edges.now result.to (keep (entering id.0) (edges_in edges.now m)) × Found edges.now result.from (keep (leaving id.0) (edges_in edges.now m))) }
{
    let mut to = Side::Empty;
    let mut from = Side::Empty;
    for i in 0..m {
        let out = id == rows::parent(&edges[i]);
        if id == rows::child(&edges[i]) {
            to = one_more(to, i);
            if out {
                from = Side::Several;
            }
        } else {
            if out {
                from = one_more(from, i);
            }
        }
    }
    Touching { to, from }
}

// What an edge to a name and one from it put in: a row, or nothing where the way would lead from a name to itself; `None` where its path is
// too long.
fn one_way(x: &Row, y: &Row) -> Option<Option<Row>>
    ensures { IfSome result (λ b. ways (row_of x.now ∷ []) (row_of y.now ∷ []) ≡ put_of b) }
{
    if rows::parent(x) == rows::child(y) {
        return Some(None);
    }
    match rows::splice(x, y) {
        Candidate::Fits(row) => Some(Some(row)),
        Candidate::TooLong(_) => None,
    }
}

// What a release puts in, where the passes are not needed to know it: nothing where a side is empty, else the way of two single edges.
fn put_in(edges: &[Row; MAX_EDGES], t: Touching) -> Option<Option<Row>>
    requires { Within t.to × Within t.from }
    ensures { IfSome result (λ b. (xs ys : List G.GEdge) → Found edges.now t.to xs → Found edges.now t.from ys → ways xs ys ≡ put_of b) }
{
    match (t.to, t.from) {
        (Side::Empty, _) => Some(None),
        (_, Side::Empty) => Some(None),
        (Side::Single(i), Side::Single(j)) => one_way(&edges[i], &edges[j]),
        _ => None,
    }
}

// A release where at most one way leads through the name: its rows are left out and that way is put in, which needs no passes and is
// never refused.
fn splice_one_way(
    edges: &mut [Row; MAX_EDGES],
    m: usize,
    id: RefID,
    b: Option<Row>,
) -> Result<Changed, Refusal>
    requires { m ≤ max_edges }
    ensures { IfOk result (λ c. c.edges ≤ max_edges) × (length edges.old ≡ max_edges → (ns : List G.Name) → G.well_formed (graph_with ns (edges_in edges.old m)) && G.holds ns id.0 ≡ true → ways (keep (entering id.0) (edges_in edges.old m)) (keep (leaving id.0) (edges_in edges.old m)) ≡ put_of b → Edits (G.release (graph_with ns (edges_in edges.old m)) id.0) (keep (G.other id.0) ns) edges.old m edges.new result) }
{
    let k = left_out(edges, m, id);
    match b {
        Some(x) => add_edge(edges, k, x),
        None => Ok(Changed {
            edges: k,
            blurred: 0,
        }),
    }
}

// 22 for a path of more than eight labels, then 21 for more than 96 edges in the end.
fn release_edges(edges: &mut [Row; MAX_EDGES], m: usize, id: RefID) -> Result<Changed, Refusal>
    requires { m ≤ max_edges }
    ensures { IfOk result (λ c. c.edges ≤ max_edges) × (length edges.old ≡ max_edges → (ns : List G.Name) → G.well_formed (graph_with ns (edges_in edges.old m)) && G.holds ns id.0 ≡ true → Edits (G.release (graph_with ns (edges_in edges.old m)) id.0) (keep (G.other id.0) ns) edges.old m edges.new result) }
{
    let t = touching_edges(edges, m, id);
    match put_in(edges, t) {
        Some(b) => splice_one_way(edges, m, id, b),
        None => release_through(edges, m, id),
    }
}

// How many sets are blurred by it; refused, all is as it was. 9 where the name is not held.
pub fn release(
    names: &mut [u32; MAX_NAMES],
    edges: &mut [Row; MAX_EDGES],
    g: &mut BorrowGraph,
    id: RefID,
) -> Result<u8, Refusal>
    ensures { Tells names.old edges.old g.old → Blurs (G.release (graph_in names.old edges.old g.old) id.0) names.old edges.old g.old names.new edges.new g.new result }
{
    if !(g.formed & refs::holds(names, g.refs, id) & (g.edges <= MAX_EDGES)) {
        return Err(Refusal::IllFormed);
    }
    let c = release_edges(edges, g.edges, id)?;
    g.edges = c.edges;
    g.refs = refs::without(names, g.refs, id);
    Ok(c.blurred)
}
