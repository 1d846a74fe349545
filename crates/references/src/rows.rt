// An edge with its ends, as a row of ten words. Where each function stands in the Rust (references.rs; P: paths.rs):
//
//   here                the Rust
//   row                 37 `BorrowEdge` and its pair; its `loc` is unit there, the offset here
//   leq                 82 `leq`
//   cmp, eq, lt         216 `cmp`, 202 `eq`
//   cmp_paths           186, the derived order of `Vec`
//   leq_paths           P 7 `leq`; starts_with, for a path of at most one label
//   factor              P 11 `factor`, without the first half of its answer, which nothing uses
//   splice              P 17 `append`, within graph.rs 256 `splice_out_intermediate`
ghost use Rattle.std.specs.Prelude.{◌≡◌, ◌++◌, ◌+◌, ◌*◌, ◌-◌, ◌≤◌, ◌<◌, length, drop, get_or, map};
ghost use Rattle.meaning.specs.Limits.{max_labels};
ghost use Rattle.meaning.specs.Labels.{number_of};
ghost use Rattle.meaning.specs.References.{prefix, compare_paths, compare_edges, eq_edge, lt_edge, covers, fitting};
ghost use Rattle.meaning.specs.BorrowGraph as G;
ghost use Rattle.meaning.specs.BorrowGraph.{between, shift, meets_label};
ghost use Rattle.meaning.specs.Area.{label_in, edge_words};
ghost use Rattle.meaning.specs.Laws.Area.{bit};
ghost use Rattle.paths.specs.Models.{label_of, ordering_of};
ghost use Rattle.references.specs.Models.{row_of, path_at, filter_of, candidate_of, row_in, offset_at};
ghost use Rattle.references.specs.RowLaws.{path_in, count_in, first_of};

use crate::RefID;
use crate::words::{OFFSET, bit_of, ends, id_in, offset_in, parent_in};
use file_format::CodeOffset;
use meaning::{EDGE_WORDS, MAX_LABELS};
use paths::Label;
use std::cmp::Ordering;

// What a label's number is counted in, the unit of the mark of a strong edge, and where a row's labels start.
const LABEL_END: u32 = 262144;

const STRONG: u32 = 16;

const LABELS: usize = 2;

pub type Row = [u32; EDGE_WORDS];

// An edge to put into a set, or word that its path is longer than eight labels: then the row has its ends and its offset, and what else it holds is
// free.
#[derive(Clone, Copy)]
pub enum Candidate {
    Fits(Row),
    TooLong(Row),
}

// ---- a row, read

pub fn parent(x: &Row) -> RefID
    ensures { result.0 ≡ (row_of x.now).parent }
{
    parent_in(x[0])
}

pub fn child(x: &Row) -> RefID
    ensures { result.0 ≡ (row_of x.now).child }
{
    id_in(x[0])
}

pub fn is_blurred(x: &Row) -> bool
    ensures { result ≡ (row_of x.now).blurred }
{
    x[1] / (2 * STRONG) % 2 == 1
}

pub fn is_strong(x: &Row) -> bool
    ensures { result ≡ (row_of x.now).edge.strong }
{
    x[1] / STRONG % 2 == 1
}

// Of the instruction that made the edge.
pub fn offset(x: &Row) -> CodeOffset
    ensures { result.0 ≡ (row_of x.now).edge.offset }
{
    offset_in(x[1])
}

// How many labels the path has.
pub fn labels(x: &Row) -> usize
    ensures { (result ≡ length (row_of x.now).edge.path) × (result ≤ max_labels) }
{
    ((x[1] % STRONG) as usize).min(MAX_LABELS)
}

fn label(x: &Row, i: usize) -> u32
    requires { i < max_labels }
    ensures { result ≡ label_in (get_or x.now (2 + i) 0) }
{
    x[LABELS + i] % LABEL_END
}

// How the edge's pair stands to this one: the ends' words stand in the order of the pairs.
pub fn side(x: &Row, parent: RefID, child: RefID) -> Ordering
    ensures { ordering_of result ≡ G.side parent.0 child.0 (row_of x.now) }
{
    x[0].cmp(&ends(parent, child))
}

// ---- the orders

// The words of the path's labels.
fn path(x: &Row) -> &[u32]
    ensures { map label_in result.now ≡ (row_of x.now).edge.path }
{
    &x[LABELS..LABELS + labels(x)]
}

fn cmp_paths(x: &Row, y: &Row) -> Ordering
    ensures { ordering_of result ≡ compare_paths (row_of x.now).edge.path (row_of y.now).edge.path }
{
    let ours = path(x).iter().map(|w| *w % LABEL_END);
    let theirs = path(y).iter().map(|w| *w % LABEL_END);
    ours.cmp(theirs)
}

// Weak before strong, then by the path.
pub fn cmp(x: &Row, y: &Row) -> Ordering
    ensures { ordering_of result ≡ compare_edges (row_of x.now).edge (row_of y.now).edge }
{
    is_strong(x)
        .cmp(&is_strong(y))
        .then_with(|| cmp_paths(x, y))
}

pub(crate) fn eq(x: &Row, y: &Row) -> bool
    ensures { result ≡ eq_edge (row_of x.now).edge (row_of y.now).edge }
{
    cmp(x, y).is_eq()
}

pub fn lt(x: &Row, y: &Row) -> bool
    ensures { result ≡ lt_edge (row_of x.now).edge (row_of y.now).edge }
{
    cmp(x, y).is_lt()
}

// Whether the first path is a prefix of the second.
fn leq_paths(x: &Row, y: &Row) -> bool
    ensures { result ≡ prefix (row_of x.now).edge.path (row_of y.now).edge.path }
{
    let n = labels(x);
    n <= labels(y) && (0..n).all(|i| label(x, i) == label(y, i))
}

// Whether the first edge covers the second.
pub fn leq(x: &Row, y: &Row) -> bool
    ensures { result ≡ covers (row_of x.now).edge (row_of y.now).edge }
{
    eq(x, y) || (!is_strong(x) && leq_paths(x, y))
}

// ---- a path of at most one label: none for the borrow of a whole. As a filter: every borrow counts, or those that meet the label.

fn len_of(path: Option<Label>) -> usize
    ensures { (result ≡ length (path_at path)) × (result ≤ 1) }
{
    usize::from(path.is_some())
}

// Its label's number; 0 where it has none.
fn number_of(path: Option<Label>) -> u32
    ensures { (result ≡ first_of (path_at path)) × (result < 262144) }
{
    path.map_or(0, |l| l.number())
}

// Whether the path is empty or its first label the filter's.
pub fn meets(x: &Row, at: Option<Label>) -> bool
    ensures { result ≡ meets_label (filter_of at) (row_of x.now).edge.path }
{
    let k = len_of(at);
    let l = number_of(at);
    let n = labels(x);
    (k == 0) | (n == 0) | (l == label(x, 0))
}

// Whether the path starts with this one.
pub fn starts_with(x: &Row, path: Option<Label>) -> bool
    ensures { result ≡ prefix (path_at path) (row_of x.now).edge.path }
{
    let k = len_of(path);
    let l = number_of(path);
    let n = labels(x);
    (k == 0) | ((0 < n) & (l == label(x, 0)))
}

// ---- a row, made

fn marks(loc: CodeOffset, blurred: bool, strong: bool, labels: usize) -> u32
    requires { labels ≤ max_labels }
    ensures { result ≡ loc.0 * 65536 + bit blurred * 32 + bit strong * 16 + labels }
{
    loc.0 as u32 * OFFSET + bit_of(blurred) * (2 * STRONG) + bit_of(strong) * STRONG + labels as u32
}

// An edge that is not blurred, from the instruction at `loc`.
pub fn edge(loc: CodeOffset, parent: RefID, strong: bool, path: Option<Label>, child: RefID) -> Row
    ensures { row_of result ≡ between parent.0 (record { strong = strong; path = path_at path; offset = loc.0 }) child.0 }
{
    let mut out = [0; EDGE_WORDS];
    out[0] = ends(parent, child);
    out[1] = marks(loc, false, strong, len_of(path));
    out[LABELS] = number_of(path);
    out
}

// The labels of x from `start` on, put into `out` from `at` on.
fn copy_labels(out: Row, at: usize, x: &Row, start: usize, n: usize) -> Row
    requires { (start ≤ n) × (n ≤ max_labels) × (at + (n - start) ≤ max_labels) }
    ensures { (path_in result (at + (n - start)) ≡ path_in out at ++ drop start (path_in x.now n)) × (get_or result 0 0 ≡ get_or out 0 0) × (length result ≡ edge_words) }
{
    let mut out = out;
    let end = at + (n - start);
    out[LABELS + at..LABELS + end].copy_from_slice(&x[LABELS + start..LABELS + n]);
    out
}

// An edge without the first k labels of its path, between these names and with this offset.
fn remade(x: &Row, k: usize, loc: CodeOffset, parent: RefID, child: RefID, blurred: bool) -> Row
    requires { k ≤ count_in x.now }
    ensures { (row_of result ≡ record { parent = parent.0; child = child.0; blurred = blurred; edge = record { strong = (row_of x.now).edge.strong; path = drop k (row_of x.now).edge.path; offset = loc.0 } }) × (length result ≡ edge_words) }
{
    let n = labels(x);
    let none = [0; EDGE_WORDS];
    let mut out = copy_labels(none, 0, x, k, n);
    out[0] = ends(parent, child);
    out[1] = marks(loc, blurred, is_strong(x), n - k);
    out
}

// The edge of a pair's set with the pair's names and its mark.
pub fn tagged(x: &Row, parent: RefID, child: RefID, blurred: bool) -> Row
    ensures { row_of result ≡ record { parent = parent.0; child = child.0; blurred = blurred; edge = (row_of x.now).edge } }
{
    let loc = offset(x);
    remade(x, 0, loc, parent, child, blurred)
}

// The same edge between other names.
pub fn renamed(x: &Row, parent: RefID, child: RefID) -> Row
    ensures { row_of result ≡ record { parent = parent.0; child = child.0; blurred = (row_of x.now).blurred; edge = (row_of x.now).edge } }
{
    let b = is_blurred(x);
    let loc = offset(x);
    remade(x, 0, loc, parent, child, b)
}

// What a strong borrow at this path moves under the child: the path loses its front, and the row its mark of blurring.
pub fn factor(y: &Row, path: Option<Label>, child: RefID) -> Row
    ensures { row_of result ≡ shift child.0 (path_at path) (row_of y.now) }
{
    let k = len_of(path).min(labels(y));
    let end = self::child(y);
    let loc = offset(y);
    remade(y, k, loc, child, end, false)
}

// The way from x's parent to y's child, with y's offset. Behind a weak edge nothing more is known.
pub fn splice(x: &Row, y: &Row) -> Candidate
    ensures { (candidate_of result ≡ fitting (G.splice (row_of x.now).edge (row_of y.now).edge)) × ((row_of (row_in result)).parent ≡ (row_of x.now).parent) × ((row_of (row_in result)).child ≡ (row_of y.now).child) }
{
    let behind = offset(y);
    let whole = remade(x, 0, behind, parent(x), child(y), false);
    if !is_strong(x) {
        return Candidate::Fits(whole);
    }
    let n = labels(x);
    let m = labels(y);
    if MAX_LABELS < n + m {
        return Candidate::TooLong(whole);
    }
    let mut out = copy_labels(whole, n, y, 0, m);
    out[1] = marks(behind, false, is_strong(y), n + m);
    Candidate::Fits(out)
}

impl Candidate {
    pub fn offset(&self) -> CodeOffset
        ensures { result.0 ≡ offset_at self.now }
    {
        match self {
            Candidate::Fits(row) => offset(row),
            Candidate::TooLong(row) => offset(row),
        }
    }
}
