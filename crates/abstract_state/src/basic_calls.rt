// The calls that every entry point is made of. Of a state that has stopped each hands on the number; what else it leaves is free. Where
// each stands in the Rust (abstract_state.rs):
//
//   here                   the Rust
//   frame_root             115 `frame_root`
//   fresh, new_ref         139 `new_ref`: the name, and the state that has it
//   add_copy               146 `add_copy`
//   add_borrow             150 `add_borrow`
//   add_field_borrow       154 `add_field_borrow`
//   add_local_borrow       159 `add_local_borrow`
//   add_resource_borrow    164 `add_resource_borrow`
//   release                170 `release`
//   local, set_local       `self.locals.get`, `insert` and `remove`
//   violate_if             119 `error`, where a test fails on an edge; the Rust does not tell on which
//   give, refuse, pass_refusal, require_yes    what the Rust's answers and panics become
ghost use Rattle.std.specs.Prelude.{◌≡◌, ℕ, List, if◌then◌else◌, nat_lt, slice_index_or};
ghost use Rattle.meaning.specs.AbstractState as S;
ghost use Rattle.meaning.specs.Answers.{Ans, done};
ghost use Rattle.meaning.specs.BorrowGraph as L;
ghost use Rattle.meaning.specs.EntryPoints.{answer, with_local, count_on, on_graph, new_ref, add_copy, add_borrow, add_field_borrow, add_local_borrow, add_resource_borrow, release_name};
ghost use Rattle.borrow_graph.specs.Models as G;
ghost use Rattle.borrow_graph_edit.specs.Models.{Blurs};
ghost use Rattle.abstract_state.specs.Models.{operand_of, local_of, locals_in, words, Fits, Does, Gives, halted, heeding, failing, needing};

use crate::state::{AbstractState, AbstractValue, LOCALS};
use crate::words::{local_of, local_word};
use borrow_graph::graph::BorrowGraph;
use borrow_graph_edit::borrow::{add_strong_borrow, add_weak_borrow};
use file_format::{CodeOffset, LocalIndex};
use meaning::{MAX_EDGES, MAX_LOCALS, MAX_NAMES};
use paths::Label;
use references::RefID;
use references::rows::Row;
use vm_status::{Numbered, Refusal, Refuses};

// A name is below this.
const NAME_END: u32 = 65536;

pub fn frame_root(state: AbstractState) -> RefID
    ensures { result.0 ≡ state.num_locals }
{
    RefID(state.num_locals as u16)
}

// The name that new_ref gives next, if it does not refuse.
pub fn fresh(state: AbstractState) -> RefID
    ensures { result.0 ≡ (if nat_lt state.next_id 65536 then state.next_id else 0) }
{
    if state.next_id < NAME_END {
        return RefID(state.next_id as u16);
    }
    RefID(0)
}

pub fn give(state: AbstractState, value: AbstractValue) -> AbstractState
    ensures { (ls ns : List ℕ) (es : List (List ℕ)) → Gives (λ s. answer s (operand_of value)) (words ls ns es state) (words ls ns es result) }
{
    AbstractState { value, ..state }
}

// A number 0 refuses nothing.
pub fn refuse<N: Numbered>(state: AbstractState, r: N) -> AbstractState
    ensures { (ls ns : List ℕ) (es : List (List ℕ)) → Does (λ s. halted 0 0 0 (N.number_is r) s) (words ls ns es state) (words ls ns es result) }
{
    let mut s = state;
    if (s.violation == 0) & (s.refusal == 0) {
        s.refusal = r.number();
    }
    s
}

// What stands in the way was borrowed at this offset. A code 0 is no violation.
fn violate<C: Numbered>(state: AbstractState, code: C, at: CodeOffset) -> AbstractState
    ensures { (ls ns : List ℕ) (es : List (List ℕ)) → Does (λ s. halted s.blurs (C.number_is code) at.0 0 s) (words ls ns es state) (words ls ns es result) }
{
    let mut s = state;
    if (state.violation == 0) & (state.refusal == 0) {
        s.violation = code.number();
        s.borrowed_at = at;
    }
    s
}

// Refused, where the question was.
pub fn pass_refusal<E: Refuses>(state: AbstractState, t: Result<bool, E>) -> AbstractState
    ensures { (ls ns : List ℕ) (es : List (List ℕ)) → Does (heeding (G.told_by E.number_is t)) (words ls ns es state) (words ls ns es result) }
{
    match t {
        Ok(_) => state,
        Err(e) => refuse(state, e),
    }
}

// Refused, where the question was or its answer is no.
pub fn require_yes<E: Refuses, N: Numbered>(
    state: AbstractState,
    t: Result<bool, E>,
    r: N,
) -> AbstractState
    ensures { (ls ns : List ℕ) (es : List (List ℕ)) → Does (needing (G.told_by E.number_is t) (N.number_is r)) (words ls ns es state) (words ls ns es result) }
{
    match t {
        Ok(true) => state,
        Ok(false) => refuse(state, r),
        Err(e) => refuse(state, e),
    }
}

// Refused where the question was; violated where there is an edge of the kind that it asked for.
pub fn violate_if<E: Refuses, C: Numbered>(
    state: AbstractState,
    t: Result<Option<CodeOffset>, E>,
    code: C,
) -> AbstractState
    ensures { (ls ns : List ℕ) (es : List (List ℕ)) → Does (failing (G.low_by E.number_is t) (C.number_is code)) (words ls ns es state) (words ls ns es result) }
{
    match t {
        Ok(None) => state,
        Ok(Some(at)) => violate(state, code, at),
        Err(e) => refuse(state, e),
    }
}

// What a local holds; one that there is not is absent.
pub fn local(locals: &[u32; LOCALS], state: AbstractState, i: LocalIndex) -> Option<AbstractValue>
    ensures { (ns : List ℕ) (es : List (List ℕ)) → Fits (words locals.now ns es state) → local_of result ≡ slice_index_or (locals_in locals.now state.num_locals) i.0 S.Local.absent }
{
    if i.0 < state.num_locals {
        if i.0 < MAX_LOCALS {
            let w = locals[i.0 as usize];
            return local_of(w);
        }
    }
    None
}

pub fn set_local(locals: &mut [u32; LOCALS], i: LocalIndex, x: Option<AbstractValue>)
    ensures { (ns : List ℕ) (es : List (List ℕ)) (s : AbstractState) → Does (λ q. done (with_local q i.0 (local_of x))) (words locals.old ns es s) (words locals.new ns es s) }
{
    if i.0 < MAX_LOCALS {
        let w = local_word(x);
        locals[i.0 as usize] = w;
    }
}

pub fn new_ref(names: &mut [u32; MAX_NAMES], state: AbstractState, mutable: bool) -> AbstractState
    ensures { (ls : List ℕ) (es : List (List ℕ)) → Does (new_ref mutable) (words ls names.old es state) (words ls names.new es result) }
{
    if state.next_id < NAME_END {
        let mut g = state.borrow_graph;
        let id = RefID(state.next_id as u16);
        let a = borrow_graph::graph::new_ref(names, &mut g, id, mutable);
        let s = AbstractState {
            borrow_graph: g,
            next_id: state.next_id + 1,
            ..state
        };
        return match a {
            Ok(()) => s,
            Err(e) => refuse(s, e),
        };
    }
    refuse(state, Refusal::IllFormed)
}

// A count goes on, but not beyond the most that it can hold.
fn count_on(n: u32, k: u8) -> u32
    ensures { result ≡ count_on n k }
{
    if u32::MAX - n < k as u32 {
        return u32::MAX;
    }
    n + k as u32
}

// What a graph call answered, the number of sets that it blurred, and the graph that it left. A stopped state takes that graph too, since the
// arrays hold it now.
fn on_graph(state: AbstractState, g: BorrowGraph, a: Result<u8, Refusal>) -> AbstractState
    ensures { (ls ns ns' : List ℕ) (es es' : List (List ℕ)) (f : L.Graph → Ans L.Graph) → (G.Tells ns es state.borrow_graph → Blurs (f (G.graph_in ns es state.borrow_graph)) ns es state.borrow_graph ns' es' g a) → Does (λ s. on_graph s (f s.graph)) (words ls ns es state) (words ls ns' es' result) }
{
    let mut s = state;
    s.borrow_graph = g;
    match a {
        Ok(blurred) => {
            if (state.violation == 0) & (state.refusal == 0) {
                s.blurred = count_on(state.blurred, blurred);
            }
            s
        }
        Err(e) => refuse(s, e),
    }
}

pub fn add_copy(
    names: &[u32; MAX_NAMES],
    edges: &mut [Row; MAX_EDGES],
    state: AbstractState,
    parent: RefID,
    child: RefID,
) -> AbstractState
    ensures { (ls : List ℕ) → Does (add_copy parent.0 child.0) (words ls names.now edges.old state) (words ls names.now edges.new result) }
{
    let mut g = state.borrow_graph;
    let loc = state.offset;
    let a = add_strong_borrow(names, edges, &mut g, loc, parent, None, child);
    on_graph(state, g, a)
}

pub fn add_borrow(
    names: &[u32; MAX_NAMES],
    edges: &mut [Row; MAX_EDGES],
    state: AbstractState,
    parent: RefID,
    child: RefID,
) -> AbstractState
    ensures { (ls : List ℕ) → Does (add_borrow parent.0 child.0) (words ls names.now edges.old state) (words ls names.now edges.new result) }
{
    let mut g = state.borrow_graph;
    let loc = state.offset;
    let a = add_weak_borrow(names, edges, &mut g, loc, parent, None, child);
    on_graph(state, g, a)
}

pub fn add_field_borrow(
    names: &[u32; MAX_NAMES],
    edges: &mut [Row; MAX_EDGES],
    state: AbstractState,
    parent: RefID,
    field: u16,
    child: RefID,
) -> AbstractState
    ensures { (ls : List ℕ) → Does (add_field_borrow parent.0 field child.0) (words ls names.now edges.old state) (words ls names.now edges.new result) }
{
    let mut g = state.borrow_graph;
    let loc = state.offset;
    let path = Some(Label::Field(field));
    let a = add_strong_borrow(names, edges, &mut g, loc, parent, path, child);
    on_graph(state, g, a)
}

pub fn add_local_borrow(
    names: &[u32; MAX_NAMES],
    edges: &mut [Row; MAX_EDGES],
    state: AbstractState,
    local: LocalIndex,
    child: RefID,
) -> AbstractState
    ensures { (ls : List ℕ) → Does (add_local_borrow local.0 child.0) (words ls names.now edges.old state) (words ls names.now edges.new result) }
{
    let mut g = state.borrow_graph;
    let loc = state.offset;
    let root = RefID(state.num_locals as u16);
    let path = Some(Label::Local(local.0 as u16));
    let a = add_strong_borrow(names, edges, &mut g, loc, root, path, child);
    on_graph(state, g, a)
}

pub fn add_resource_borrow(
    names: &[u32; MAX_NAMES],
    edges: &mut [Row; MAX_EDGES],
    state: AbstractState,
    resource: u16,
    child: RefID,
) -> AbstractState
    ensures { (ls : List ℕ) → Does (add_resource_borrow resource child.0) (words ls names.now edges.old state) (words ls names.now edges.new result) }
{
    let mut g = state.borrow_graph;
    let loc = state.offset;
    let root = RefID(state.num_locals as u16);
    let path = Some(Label::Global(resource));
    let a = add_weak_borrow(names, edges, &mut g, loc, root, path, child);
    on_graph(state, g, a)
}

pub fn release(
    names: &mut [u32; MAX_NAMES],
    edges: &mut [Row; MAX_EDGES],
    state: AbstractState,
    id: RefID,
) -> AbstractState
    ensures { (ls : List ℕ) → Does (release_name id.0) (words ls names.old edges.old state) (words ls names.new edges.new result) }
{
    let mut g = state.borrow_graph;
    let a = borrow_graph_edit::release::release(names, edges, &mut g, id);
    on_graph(state, g, a)
}
