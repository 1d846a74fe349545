// How many sets a call blurs. (The Rust does not count them.)
ghost use Rattle.std.specs.Prelude.{◌≡◌, not, ◌&&◌, List, ◌≤◌, length, IfOk};
ghost use Rattle.meaning.specs.Limits.{max_edges};
ghost use Rattle.meaning.specs.Answers.{Ans, ok};
ghost use Rattle.meaning.specs.BorrowGraph.{Name, Graph, set_at, newly_blurred};
ghost use Rattle.meaning.specs.AbstractState.{count1};
ghost use Rattle.meaning.specs.Laws.Report.{is_now};
ghost use Rattle.references.specs.Models.{row_of, edges_in, report_of};
ghost use Rattle.vm_status.specs.Models.{answer_of};
ghost use Rattle.borrow_graph_edit.specs.Models.{blurred_at};
ghost use Rattle.borrow_graph_edit.specs.Edits.{graph_with, Edits};

use meaning::MAX_EDGES;
use references::RefID;
use references::rows::{Row, child, is_blurred, parent};
use references::set::Report;
use vm_status::Refusal;

// How many edges there are after a change, and how many sets it blurred.
#[derive(Clone, Copy)]
pub(crate) struct Changed {
    pub edges: usize,
    pub blurred: u8,
}

// How many sets an insert blurred.
pub(crate) fn blurs(r: Report) -> u8
    ensures { result ≡ count1 (is_now (ok (report_of r))) }
{
    u8::from(r == Report::BlurredNow)
}

// Whether a row is of this pair, and the pair's set blurred.
fn is_blurred_between(x: &Row, p: RefID, c: RefID) -> bool
    ensures { result ≡ blurred_at p.0 c.0 (row_of x.now) }
{
    (p == parent(x)) & (c == child(x)) & is_blurred(x)
}

// Whether the set of a pair is blurred.
fn is_blurred_in(edges: &[Row; MAX_EDGES], m: usize, p: RefID, c: RefID) -> bool
    requires { m ≤ max_edges }
    ensures { length edges.now ≡ max_edges → result ≡ (set_at p.0 c.0 (edges_in edges.now m)).blurred }
{
    edges[..m].iter().any(|x| is_blurred_between(x, p, c))
}

// Whether a row's set is blurred and was not in the `old` rows.
fn is_newly_blurred(old: &[Row; MAX_EDGES], m: usize, x: &Row) -> bool
    requires { m ≤ max_edges }
    ensures { length old.now ≡ max_edges → result ≡ ((row_of x.now).blurred && not (set_at (row_of x.now).parent (row_of x.now).child (edges_in old.now m)).blurred) }
{
    is_blurred(x) && !is_blurred_in(old, m, parent(x), child(x))
}

// How many sets are blurred and were not in the `old` rows.
pub(crate) fn newly_blurred(
    old: &[Row; MAX_EDGES],
    m: usize,
    edges: &[Row; MAX_EDGES],
    n: usize,
) -> u8
    requires { (m ≤ max_edges) × (n ≤ max_edges) }
    ensures { length old.now ≡ max_edges → length edges.now ≡ max_edges → result ≡ newly_blurred (edges_in old.now m) (edges_in edges.now n) }
{
    edges[..n]
        .iter()
        .filter(|x| is_newly_blurred(old, m, x))
        .count() as u8
}

// What a change of several sets comes to; refused, the rows are the `old` ones again.
pub(crate) fn settled(
    edges: &mut [Row; MAX_EDGES],
    old: &[Row; MAX_EDGES],
    m: usize,
    r: Result<usize, Refusal>,
) -> Result<Changed, Refusal>
    requires { (m ≤ max_edges) × IfOk r (λ n. n ≤ max_edges) }
    ensures { IfOk result (λ c. c.edges ≤ max_edges) × (length edges.old ≡ max_edges → length old.now ≡ max_edges → (ns : List Name) → (a : Ans Graph) → answer_of (λ n. graph_with ns (edges_in edges.old n)) r ≡ a → Edits a ns old.now m edges.new result) }
{
    match r {
        Ok(n) => Ok(Changed {
            edges: n,
            blurred: newly_blurred(old, m, edges, n),
        }),
        Err(e) => {
            *edges = *old;
            Err(e)
        }
    }
}
