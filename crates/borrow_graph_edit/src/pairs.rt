// A pair's set: collected, and exchanged for a new one within the limit of 96 edges. In the Rust it is an entry of `borrowed_by` and one of
// `borrows_from` (references.rs, 64).
ghost use Rattle.std.specs.Prelude.{◌≡◌, true, ℕ, Bool, List, ◌++◌, ◌+◌, ◌-◌, ◌≤◌, length, take, drop, IfOk};
ghost use Rattle.meaning.specs.Limits.{max_edges, max_set_size};
ghost use Rattle.meaning.specs.Lists.{keep};
ghost use Rattle.meaning.specs.Answers.{Ans, ok};
ghost use Rattle.meaning.specs.References.{EdgeSet, set_ok};
ghost use Rattle.meaning.specs.BorrowGraph.{tagged, is_before, set_at};
ghost use Rattle.meaning.specs.Refinement.Pairs.{Pair, edges_at, replace_one, replace_lim, two_pass};
ghost use Rattle.meaning.specs.Laws.Pair.{Neat};
ghost use Rattle.references.specs.Models.{edges_in, set_of};
ghost use Rattle.borrow_graph_edit.specs.Models.{replaced_in, is_21};

use meaning::MAX_EDGES;
use references::RefID;
use references::rows::{Row, side, tagged};
use references::set::BorrowEdgeSet;
use std::cmp::Ordering;
use vm_status::Refusal;

// The set of a pair, and how many edges stand before it.
#[derive(Clone, Copy)]
pub(crate) struct PairSet {
    pub low: usize,
    pub set: BorrowEdgeSet,
}

// How many edges stand before a pair's, and how many the pair has.
#[derive(Clone, Copy)]
pub(crate) struct PairPlace {
    pub low: usize,
    pub size: usize,
}

// Where a pair's edges stand.
pub(crate) fn place(edges: &[Row; MAX_EDGES], m: usize, parent: RefID, child: RefID) -> PairPlace
    requires { m ≤ max_edges }
    ensures { (result.low + result.size ≤ m) × (length edges.now ≡ max_edges → (result.low ≡ length (keep (is_before parent.0 child.0) (edges_in edges.now m))) × (result.size ≡ length (edges_at parent.0 child.0 (edges_in edges.now m)))) }
{
    let mut low: usize = 0;
    let mut size: usize = 0;
    for x in &edges[..m] {
        match side(x, parent, child) {
            Ordering::Less => low += 1,
            Ordering::Equal => size += 1,
            Ordering::Greater => {}
        }
    }
    PairPlace { low, size }
}

// The edges of a pair; it has no more than ten.
pub(crate) fn between(edges: &[Row; MAX_EDGES], m: usize, parent: RefID, child: RefID) -> PairSet
    requires { m ≤ max_edges }
    ensures { (result.low + length (set_of result.set).edges ≤ m) × (length edges.now ≡ max_edges → length (set_at parent.0 child.0 (edges_in edges.now m)).edges ≤ max_set_size → (set_of result.set ≡ set_at parent.0 child.0 (edges_in edges.now m)) × (result.low ≡ length (keep (is_before parent.0 child.0) (edges_in edges.now m)))) }
{
    let mut low: usize = 0;
    let mut set = BorrowEdgeSet::new();
    for row in &edges[..m] {
        match side(row, parent, child) {
            Ordering::Less => low += 1,
            Ordering::Equal => set.push_row(row),
            Ordering::Greater => {}
        }
    }
    PairSet { low, set }
}

// The set alone. (What stands before it is then not counted, which a walk through several pairs would pay for each of them.)
pub(crate) fn set_between(
    edges: &[Row; MAX_EDGES],
    m: usize,
    parent: RefID,
    child: RefID,
) -> BorrowEdgeSet
    requires { m ≤ max_edges }
    ensures { length edges.now ≡ max_edges → length (set_at parent.0 child.0 (edges_in edges.now m)).edges ≤ max_set_size → set_of result ≡ set_at parent.0 child.0 (edges_in edges.now m) }
{
    between(edges, m, parent, child).set
}

// The `old` edges from `low` on give way to those of a set of this pair. (By index: place `low + i` is written from row `i` of the set, which
// a `zip` over `iter_mut` says no more plainly.)
pub(crate) fn replace(
    edges: &mut [Row; MAX_EDGES],
    m: usize,
    low: usize,
    old: usize,
    parent: RefID,
    child: RefID,
    set: &BorrowEdgeSet,
) -> usize
    requires { (m ≤ max_edges) × (low + old ≤ m) × (m - old + length (set_of set.now).edges ≤ max_edges) }
    ensures { (result ≡ m - old + length (set_of set.now).edges) × (length edges.old ≡ max_edges → (length edges.new ≡ max_edges) × (edges_in edges.new result ≡ take low (edges_in edges.old m) ++ (tagged parent.0 child.0 (set_of set.now).blurred (set_of set.now).edges ++ drop (low + old) (edges_in edges.old m)))) }
{
    let k = set.len();
    let blurred = set.is_overflown();
    let rows = set.rows();
    edges.copy_within(low + old..m, low + k);
    for i in 0..k {
        edges[low + i] = tagged(&rows[i], parent, child, blurred);
    }
    m - old + k
}

// `shrinking`: only where the new set has fewer edges. Refused, what the array holds is free.
pub(crate) fn replace_set(
    edges: &mut [Row; MAX_EDGES],
    m: usize,
    parent: RefID,
    child: RefID,
    set: &BorrowEdgeSet,
    shrinking: bool,
) -> Result<usize, Refusal>
    requires { m ≤ max_edges }
    ensures { IfOk result (λ n. n ≤ max_edges) × (length edges.old ≡ max_edges → Neat (edges_in edges.old m) → (length edges.new ≡ max_edges) × (replaced_in edges.new result ≡ replace_one shrinking parent.0 child.0 (set_of set.now) (edges_in edges.old m))) }
{
    let at = place(edges, m, parent, child);
    let k = set.len();
    if shrinking & (at.size <= k) {
        return Ok(m);
    }
    if MAX_EDGES < m - at.size + k {
        return Err(Refusal::ManyEdges);
    }
    Ok(replace(edges, m, at.low, at.size, parent, child, set))
}

// Whether a pass ended at the limit of 96 edges.
fn passes_limit(r: Result<usize, Refusal>) -> bool
    ensures { result ≡ is_21 r }
{
    matches!(r, Err(Refusal::ManyEdges))
}

// A pass over the rows; where 96 is passed on the way, again from the rows that `start` puts back: first what makes the list shorter, then all.
// Its promise: for sets `new` and pairs `rs`, where each pass does what they ask, all of it does what `two_pass` does.
pub(crate) fn two_passes<
    S: Fn(&mut [Row; MAX_EDGES]) -> usize,
    P: Fn(&mut [Row; MAX_EDGES], usize, bool) -> Result<usize, Refusal>,
>(edges: &mut [Row; MAX_EDGES], k: usize, start: S, pass: P) -> Result<usize, Refusal>
    requires begins { (k ≤ max_edges) × S.IsAlwaysCallable start }
    requires few { (e : _) (n : ℕ) (e' : _) → S.post start e n e' → n ≤ max_edges }
    requires callable { (e : _) (n : ℕ) (s : Bool) → n ≤ max_edges → P.pre pass e n s }
    requires limited { (e : _) (n : ℕ) (s : Bool) (r : _) (e' : _) → n ≤ max_edges → P.post pass e n s r e' → IfOk r (λ n. n ≤ max_edges) }
    ensures few { IfOk result (λ n. n ≤ max_edges) }
    ensures rows { (new : ℕ → ℕ → Ans EdgeSet) → (rs : List Pair) → length edges.old ≡ max_edges → Neat (edges_in edges.old k) →
        ((p c : ℕ) (s : EdgeSet) → new p c ≡ ok s → set_ok s ≡ true) →
        ((e : _) (n : ℕ) (e' : _) → S.post start e n e' → length e.now ≡ max_edges → (length e'.now ≡ max_edges) × (edges_in e'.now n ≡ edges_in edges.old k)) →
        ((e : _) (n : ℕ) (s : Bool) (r : _) (e' : _) → P.post pass e n s r e' → length e.now ≡ max_edges → Neat (edges_in e.now n) →
        (length e'.now ≡ max_edges) × (replaced_in e'.now r ≡ replace_lim s new rs (edges_in e.now n))) →
        (length edges.new ≡ max_edges) × (replaced_in edges.new result ≡ two_pass new rs (edges_in edges.old k)) }
{
    let r = pass(edges, k, false);
    if !passes_limit(r) {
        return r;
    }
    let n = start(edges);
    let m = pass(edges, n, true)?;
    pass(edges, m, false)
}
