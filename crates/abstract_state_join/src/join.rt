// The join of two states. Where each stands in the Rust (abstract_state.rs):
//
//   here          the Rust
//   join          688 `join`
//   join_         634 `join_`
//   join_locals   its loop over the locals, 642 to 670
//   meet          one turn of that loop
//   same_locals   `locals_unchanged`, 692
ghost use Rattle.std.specs.Prelude.{◌≡◌, ◌≤◌, length, IfOk};
ghost use Rattle.meaning.specs.Limits.{max_locals, max_names, max_edges};
ghost use Rattle.meaning.specs.Answers.{ok};
ghost use Rattle.meaning.specs.Area.{local_in};
ghost use Rattle.meaning.specs.AbstractState as S;
ghost use Rattle.meaning.specs.AbstractState.{eq_local, eq_locals};
ghost use Rattle.borrow_graph.specs.Models.{graph_in, Tells};
ghost use Rattle.abstract_state.specs.Models.{local_of, locals_in, words, Fits, state_of};
ghost use Rattle.abstract_state_join.specs.Models.{Meets, LocalsJoin, Merges, Joins};

use crate::locals::count;
use abstract_state::state::{AbstractState, AbstractValue, LOCALS};
use abstract_state::words::{local_of, local_word};
use borrow_graph::cover::leq;
use borrow_graph::graph::BorrowGraph;
use borrow_graph_edit::release::release;
use meaning::{MAX_EDGES, MAX_NAMES, lesser};
use references::rows::Row;
use vm_status::Refusal;

// The joined state, whether it is another than the first, and how many sets the releases and the join of the graphs blurred.
#[derive(Clone, Copy)]
pub struct Joined {
    pub state: AbstractState,
    pub changed: bool,
    pub blurred: u32,
}

fn same_local(a: u32, b: u32) -> bool
    ensures { result ≡ eq_local (local_in a) (local_in b) }
{
    local_of(a) == local_of(b)
}

fn same_locals(a: &[u32; LOCALS], b: &[u32; LOCALS], n: u8) -> bool
    ensures { length a.now ≡ max_locals → length b.now ≡ max_locals → result ≡ eq_locals (locals_in a.now n) (locals_in b.now n) }
{
    let k = count(n);
    a[..k]
        .iter()
        .zip(b[..k].iter())
        .all(|(x, y)| same_local(*x, *y))
}

// The bound of a byte, kept where the byte is widened: a side's sum of them then fits 32 bits.
fn wide(n: u8) -> u32
    ensures { (result ≡ n) × (result ≤ 255) }
{
    n as u32
}

// What the join of two locals does to the graphs, and how many sets that blurs. A reference that exists on one side only is released there. What both
// have must be the same.
fn meet(
    names: &mut [u32; MAX_NAMES],
    edges: &mut [Row; MAX_EDGES],
    ours: &mut BorrowGraph,
    names2: &mut [u32; MAX_NAMES],
    edges2: &mut [Row; MAX_EDGES],
    theirs: &mut BorrowGraph,
    a: Option<AbstractValue>,
    b: Option<AbstractValue>,
) -> Result<u8, Refusal>
    ensures { Tells names.old edges.old ours.old → Tells names2.old edges2.old theirs.old →
        Meets (local_of a) (local_of b) names.old edges.old ours.old names2.old edges2.old theirs.old
        names.new edges.new ours.new names2.new edges2.new theirs.new result }
{
    match (a, b) {
        (Some(x), Some(y)) => {
            if x == y {
                return Ok(0);
            }
            Err(Refusal::UnlikeLocals)
        }
        (Some(AbstractValue::Reference(id)), None) => release(names, edges, ours, id),
        (None, Some(AbstractValue::Reference(id))) => release(names2, edges2, theirs, id),
        _ => Ok(0),
    }
}

// Local by local, ascending: one that either side lacks is absent. Document 01 leaves open what different numbers of locals give: 9, behind the others.
fn join_locals(
    locals: &mut [u32; LOCALS],
    names: &mut [u32; MAX_NAMES],
    edges: &mut [Row; MAX_EDGES],
    ours: &mut BorrowGraph,
    num_locals: u8,
    locals2: &[u32; LOCALS],
    names2: &mut [u32; MAX_NAMES],
    edges2: &mut [Row; MAX_EDGES],
    theirs: &mut BorrowGraph,
    num_locals2: u8,
) -> Result<u32, Refusal>
    ensures { IfOk result (λ k. k ≤ 4080) × (length locals.old ≡ max_locals → length locals2.now ≡ max_locals → Tells names.old edges.old ours.old → Tells names2.old edges2.old theirs.old →
        LocalsJoin (locals_in locals.old num_locals) (locals_in locals2.now num_locals2) (graph_in names.old edges.old ours.old) (graph_in names2.old edges2.old theirs.old) num_locals
        locals.new names.new edges.new ours.new names2.new edges2.new theirs.new result) }
{
    let n = count(num_locals);
    let m = count(num_locals2);
    let mut blurred: u32 = 0;
    // (By index: our word is written in place after both are read.)
    for i in 0..lesser(n, m) {
        let a = local_of(locals[i]);
        let b = local_of(locals2[i]);
        locals[i] = local_word(b.and(a));
        let k = meet(names, edges, ours, names2, edges2, theirs, a, b)?;
        blurred += wide(k);
    }
    if n != m {
        return Err(Refusal::IllFormed);
    }
    Ok(blurred)
}

// How many sets were blurred. Refused, what the arrays and s hold is free.
fn join_(
    locals: &mut [u32; LOCALS],
    names: &mut [u32; MAX_NAMES],
    edges: &mut [Row; MAX_EDGES],
    s: &mut AbstractState,
    locals2: &[u32; LOCALS],
    names2: &mut [u32; MAX_NAMES],
    edges2: &mut [Row; MAX_EDGES],
    o: AbstractState,
) -> Result<u32, Refusal>
    ensures { Fits (words locals.old names.old edges.old s.old) → Fits (words locals2.now names2.old edges2.old o) →
        Merges (words locals.old names.old edges.old s.old) (words locals2.now names2.old edges2.old o)
        (words locals.new names.new edges.new s.new) result
        × (length names2.new ≡ max_names) × (length edges2.new ≡ max_edges) }
{
    let mut g = s.borrow_graph;
    let mut h = o.borrow_graph;
    let released = join_locals(
        locals,
        names,
        edges,
        &mut g,
        s.num_locals,
        locals2,
        names2,
        edges2,
        &mut h,
        o.num_locals,
    )?;
    let joined = borrow_graph_edit::join::join(names, edges, &mut g, names2, edges2, h)?;
    s.borrow_graph = g;
    Ok(released + wide(joined))
}

// Whether t, which came out of a join into s, is another state than s.
fn changed(
    locals: &[u32; LOCALS],
    names: &[u32; MAX_NAMES],
    edges: &[Row; MAX_EDGES],
    s: AbstractState,
    locals2: &[u32; LOCALS],
    names2: &[u32; MAX_NAMES],
    edges2: &[Row; MAX_EDGES],
    t: AbstractState,
) -> bool
    ensures { Fits (words locals.now names.now edges.now s) → Fits (words locals2.now names2.now edges2.now t) → s.num_locals ≡ t.num_locals →
        (o : S.State) → S.join (state_of (words locals.now names.now edges.now s)) o ≡ ok (state_of (words locals2.now names2.now edges2.now t)) →
        result ≡ S.changed (state_of (words locals.now names.now edges.now s)) (state_of (words locals2.now names2.now edges2.now t)) }
{
    if !same_locals(locals, locals2, s.num_locals) {
        return true;
    }
    let g = s.borrow_graph;
    let h = t.borrow_graph;
    !matches!(leq(names, edges, g, names2, edges2, h), Ok(true))
}

// Changed: the locals differ, or our graph as it was does not cover the joined one. Our arrays are copied for that question, and put back
// where the join is refused. Names are released in their arrays too, so what is lent for them is a copy.
pub fn join(
    locals: &mut [u32; LOCALS],
    names: &mut [u32; MAX_NAMES],
    edges: &mut [Row; MAX_EDGES],
    s: AbstractState,
    locals2: &[u32; LOCALS],
    names2: &mut [u32; MAX_NAMES],
    edges2: &mut [Row; MAX_EDGES],
    o: AbstractState,
) -> Result<Joined, Refusal>
    ensures { Fits (words locals.old names.old edges.old s) → Fits (words locals2.now names2.old edges2.old o) →
        Joins (words locals.old names.old edges.old s) (words locals2.now names2.old edges2.old o) locals.new names.new edges.new result
        × (length names2.new ≡ max_names) × (length edges2.new ≡ max_edges) }
{
    let ls = *locals;
    let ns = *names;
    let es = *edges;
    let mut t = s;
    match join_(locals, names, edges, &mut t, locals2, names2, edges2, o) {
        Ok(blurred) => {
            let changed = changed(&ls, &ns, &es, s, locals, names, edges, t);
            Ok(Joined {
                state: t,
                changed,
                blurred,
            })
        }
        Err(r) => {
            *locals = ls;
            *names = ns;
            *edges = es;
            Err(r)
        }
    }
}
