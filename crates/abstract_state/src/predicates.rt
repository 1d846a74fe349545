// What the entry points ask of the state. Each is refused with 9 where the graph is not well formed or lacks the name. A question about borrows
// answers the lowest offset among the edges that make the Rust's answer what it is, so those that forbid (`bars_reading`) stand for the
// Rust's that allow. Where each stands in the Rust (abstract_state.rs):
//
//   here                              the Rust
//   is_mutable                        `self.borrow_graph.is_mutable`
//   has_full_borrows                  179 `has_full_borrows`
//   has_consistent_borrows            187 `has_consistent_borrows`; not 222 `is_writable`
//   has_consistent_mutable_borrows    204 `has_consistent_mutable_borrows`; not 230 `is_freezable`
//   bars_reading                      not 238 `is_readable`
//   is_local_borrowed                 244 `is_local_borrowed`
//   is_local_mutably_borrowed         249 `is_local_mutably_borrowed`
//   is_global_borrowed                254 `is_global_borrowed`
//   is_global_mutably_borrowed        259 `is_global_mutably_borrowed`
//   is_frame_borrowed                 not 266 `is_frame_safe_to_destroy`
ghost use Rattle.std.specs.Prelude.{◌≡◌, ℕ, List, if◌then◌else◌};
ghost use Rattle.std.proofs.Math.Option.{none, some};
ghost use Rattle.meaning.specs.Labels.{local_label, global_label};
ghost use Rattle.meaning.specs.BorrowGraph.{of_name, is_mutable, borrows_fully, borrows, borrows_mutably, lowest_of};
ghost use Rattle.meaning.specs.EntryPoints.{bars_reading};
ghost use Rattle.references.specs.Models.{filter_of};
ghost use Rattle.meaning.specs.Answers.{ok, and_then};
ghost use Rattle.borrow_graph.specs.Models.{graph_in, told_of, low_by, low_of};
ghost use Rattle.abstract_state.specs.Models.{words, Fits};

use crate::basic_calls::frame_root;
use crate::state::AbstractState;
use borrow_graph::lookups::borrowed_by;
use file_format::{CodeOffset, LocalIndex};
use meaning::{MAX_EDGES, MAX_NAMES};
use paths::Label;
use references::RefID;
use references::rows::Row;
use vm_status::{Numbered, Refusal};

pub fn is_mutable(
    names: &[u32; MAX_NAMES],
    state: AbstractState,
    id: RefID,
) -> Result<bool, Refusal>
    ensures { (ls : List ℕ) (es : List (List ℕ)) → Fits (words ls names.now es state) → told_of result ≡ of_name (graph_in names.now es state.borrow_graph) id.0 (is_mutable (graph_in names.now es state.borrow_graph) id.0) }
{
    borrow_graph::graph::is_mutable(names, state.borrow_graph, id)
}

// The answer where it counts; else that there is no such edge.
pub fn only_if<E: Numbered>(
    counts: bool,
    t: Result<Option<CodeOffset>, E>,
) -> Result<Option<CodeOffset>, E>
    ensures { low_by E.number_is result ≡ and_then (low_by E.number_is t) (λ l. ok (if counts then l else none)) }
{
    let o = t?;
    Ok(if counts { o } else { None })
}

// An empty-path borrow.
pub fn has_full_borrows(
    names: &[u32; MAX_NAMES],
    edges: &[Row; MAX_EDGES],
    state: AbstractState,
    id: RefID,
) -> Result<Option<CodeOffset>, Refusal>
    ensures { (ls : List ℕ) → Fits (words ls names.now edges.now state) → low_of result ≡ of_name (graph_in names.now edges.now state.borrow_graph) id.0 (lowest_of (borrows_fully id.0) (graph_in names.now edges.now state.borrow_graph).edges) }
{
    let b = borrowed_by(names, edges, state.borrow_graph, id, None)?;
    Ok(b.full)
}

pub fn has_consistent_borrows(
    names: &[u32; MAX_NAMES],
    edges: &[Row; MAX_EDGES],
    state: AbstractState,
    id: RefID,
    at: Option<Label>,
) -> Result<Option<CodeOffset>, Refusal>
    ensures { (ls : List ℕ) → Fits (words ls names.now edges.now state) → low_of result ≡ of_name (graph_in names.now edges.now state.borrow_graph) id.0 (lowest_of (borrows id.0 (filter_of at)) (graph_in names.now edges.now state.borrow_graph).edges) }
{
    let b = borrowed_by(names, edges, state.borrow_graph, id, at)?;
    Ok(b.consistent)
}

pub fn has_consistent_mutable_borrows(
    names: &[u32; MAX_NAMES],
    edges: &[Row; MAX_EDGES],
    state: AbstractState,
    id: RefID,
    at: Option<Label>,
) -> Result<Option<CodeOffset>, Refusal>
    ensures { (ls : List ℕ) → Fits (words ls names.now edges.now state) → low_of result ≡ of_name (graph_in names.now edges.now state.borrow_graph) id.0 (lowest_of (borrows_mutably (graph_in names.now edges.now state.borrow_graph) id.0 (filter_of at)) (graph_in names.now edges.now state.borrow_graph).edges) }
{
    let b = borrowed_by(names, edges, state.borrow_graph, id, at)?;
    Ok(b.mutable)
}

// Only a mutable reference can be kept from being read.
pub fn bars_reading(
    names: &[u32; MAX_NAMES],
    edges: &[Row; MAX_EDGES],
    state: AbstractState,
    id: RefID,
    at: Option<Label>,
) -> Result<Option<CodeOffset>, Refusal>
    ensures { (ls : List ℕ) → Fits (words ls names.now edges.now state) → low_of result ≡ of_name (graph_in names.now edges.now state.borrow_graph) id.0 (lowest_of (bars_reading (graph_in names.now edges.now state.borrow_graph) id.0 (filter_of at)) (graph_in names.now edges.now state.borrow_graph).edges) }
{
    if is_mutable(names, state, id)? {
        return has_consistent_mutable_borrows(names, edges, state, id, at);
    }
    Ok(None)
}

pub fn is_local_borrowed(
    names: &[u32; MAX_NAMES],
    edges: &[Row; MAX_EDGES],
    state: AbstractState,
    local: LocalIndex,
) -> Result<Option<CodeOffset>, Refusal>
    ensures { (ls : List ℕ) → Fits (words ls names.now edges.now state) → low_of result ≡ of_name (graph_in names.now edges.now state.borrow_graph) state.num_locals (lowest_of (borrows state.num_locals (some (local_label local.0))) (graph_in names.now edges.now state.borrow_graph).edges) }
{
    let root = frame_root(state);
    let at = Some(Label::Local(local.0 as u16));
    has_consistent_borrows(names, edges, state, root, at)
}

pub fn is_local_mutably_borrowed(
    names: &[u32; MAX_NAMES],
    edges: &[Row; MAX_EDGES],
    state: AbstractState,
    local: LocalIndex,
) -> Result<Option<CodeOffset>, Refusal>
    ensures { (ls : List ℕ) → Fits (words ls names.now edges.now state) → low_of result ≡ of_name (graph_in names.now edges.now state.borrow_graph) state.num_locals (lowest_of (borrows_mutably (graph_in names.now edges.now state.borrow_graph) state.num_locals (some (local_label local.0))) (graph_in names.now edges.now state.borrow_graph).edges) }
{
    let root = frame_root(state);
    let at = Some(Label::Local(local.0 as u16));
    has_consistent_mutable_borrows(names, edges, state, root, at)
}

pub fn is_global_borrowed(
    names: &[u32; MAX_NAMES],
    edges: &[Row; MAX_EDGES],
    state: AbstractState,
    resource: u16,
) -> Result<Option<CodeOffset>, Refusal>
    ensures { (ls : List ℕ) → Fits (words ls names.now edges.now state) → low_of result ≡ of_name (graph_in names.now edges.now state.borrow_graph) state.num_locals (lowest_of (borrows state.num_locals (some (global_label resource))) (graph_in names.now edges.now state.borrow_graph).edges) }
{
    let root = frame_root(state);
    let at = Some(Label::Global(resource));
    has_consistent_borrows(names, edges, state, root, at)
}

pub fn is_global_mutably_borrowed(
    names: &[u32; MAX_NAMES],
    edges: &[Row; MAX_EDGES],
    state: AbstractState,
    resource: u16,
) -> Result<Option<CodeOffset>, Refusal>
    ensures { (ls : List ℕ) → Fits (words ls names.now edges.now state) → low_of result ≡ of_name (graph_in names.now edges.now state.borrow_graph) state.num_locals (lowest_of (borrows_mutably (graph_in names.now edges.now state.borrow_graph) state.num_locals (some (global_label resource))) (graph_in names.now edges.now state.borrow_graph).edges) }
{
    let root = frame_root(state);
    let at = Some(Label::Global(resource));
    has_consistent_mutable_borrows(names, edges, state, root, at)
}

// Something of the frame is borrowed.
pub fn is_frame_borrowed(
    names: &[u32; MAX_NAMES],
    edges: &[Row; MAX_EDGES],
    state: AbstractState,
) -> Result<Option<CodeOffset>, Refusal>
    ensures { (ls : List ℕ) → Fits (words ls names.now edges.now state) → low_of result ≡ of_name (graph_in names.now edges.now state.borrow_graph) state.num_locals (lowest_of (borrows state.num_locals none) (graph_in names.now edges.now state.borrow_graph).edges) }
{
    let root = frame_root(state);
    has_consistent_borrows(names, edges, state, root, None)
}
