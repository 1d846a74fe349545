// Call and Ret of the abstract state, in the Rust's order of tests. Where each stands in the Rust (abstract_state.rs):
//
//   here                                      the Rust
//   call                                      493 `call`
//   fail_acquired and what it calls           500 "Check acquires"
//   ask_root                                  (the Rust's graph always answers for the root)
//   hand_over, hand_value, bars_handing_over  507 and 570 "Check mutable references can be transfered"
//   all, mutable                              508 `all_references_to_borrow_from`, 509 `mutable_references_to_borrow_from`
//   return_values, return_value, return_ref   522 "Track borrow relationships of return values on inputs"
//   ret                                       552 `ret`
//   fail_frame                                562 "Check that no local or global is borrowed"
#![tactic(auto)]

mod ids;

ghost use Rattle.std.specs.Prelude.{◌≡◌, ℕ, List, [], ◌∷◌, map, take};
ghost use Rattle.meaning.specs.Limits.{max_operands};
ghost use Rattle.meaning.specs.Listing.{token_as};
ghost use Rattle.meaning.specs.EntryPoints as R;
ghost use Rattle.meaning.specs.Answers.{then};
ghost use Rattle.meaning.specs.AbstractState.{of_ref};
ghost use Rattle.meaning.specs.EntryPoints.{return_values};
ghost use Rattle.meaning.specs.BorrowGraph.{of_name, lowest_of};
ghost use Rattle.file_format.specs.Models.{token_of};
ghost use Rattle.borrow_graph.specs.Models.{graph_in, low_of};
ghost use Rattle.borrow_graph.specs.Folds.{lower_if};
ghost use Rattle.vm_status.specs.Models.{code_of};
ghost use Rattle.abstract_state.specs.Models.{operand_of, operands_of, words, Fits, Does, running_of, outcome_of};
ghost use Rattle.abstract_state_calls.specs.Models.{ids_of, answers_of, Calls, acquiring, handing, framed, is_borrowed, is_below, lowest_borrowed, number_in};

use crate::ids::{Ids, local_ids, operand_ids};
use abstract_state::basic_calls::{frame_root, fresh, give, new_ref, pass_refusal, violate_if};
use abstract_state::predicates::{
    has_consistent_borrows, is_frame_borrowed, is_global_borrowed, is_mutable,
};
use abstract_state::state::{AbstractState, AbstractValue, LOCALS, Operands};
use abstract_state::words::{value_of, value_word};
use file_format::{CodeOffset, SignatureToken};
use meaning::{MAX_EDGES, MAX_NAMES, MAX_OPERANDS, lesser};
use references::RefID;
use references::rows::Row;
use vm_status::{Refusal, StatusCode};

// What a call leaves, and the values that it returns. Where the state has stopped, the values are free.
#[derive(Clone, Copy)]
pub struct Called {
    pub state: AbstractState,
    pub values: Operands,
}

// The acquired numbers come in any order, with repeats; a token is 0 a value, 2 a mutable reference, else a reference. Only 16 tokens are read.
pub fn call(
    names: &mut [u32; MAX_NAMES],
    edges: &mut [Row; MAX_EDGES],
    state: AbstractState,
    arguments: Operands,
    acquired: &[u16],
    tokens: &[u8],
) -> Called
    ensures { (ls : List ℕ) → (Fits (words ls names.old edges.old state) → Fits (words ls names.new edges.new result.state)) × (Fits (words ls names.old edges.old state) → answers_of (words ls names.new edges.new result.state) (operands_of result.values) ≡ then (outcome_of (words ls names.old edges.old state)) (R.call (operands_of arguments) acquired.now (map token_as (take max_operands tokens.now)))) }
{
    let all = operand_ids(&arguments);
    let mutable = all.mutable(names, state);
    let s = fail_acquired(names, edges, state, acquired);
    let t = hand_over(
        names,
        edges,
        s,
        arguments,
        StatusCode::CallBorrowedMutableReference,
    );
    let u = return_values(names, edges, t, tokens, &mutable, &all);
    let v = u.state;
    let values = u.values;
    let w = all.release_all(names, edges, v);
    Called { state: w, values }
}

pub fn ret(
    locals: &[u32; LOCALS],
    names: &mut [u32; MAX_NAMES],
    edges: &mut [Row; MAX_EDGES],
    state: AbstractState,
    values: Operands,
) -> AbstractState
    ensures { Does (R.ret (operands_of values)) (words locals.now names.old edges.old state) (words locals.now names.new edges.new result) }
{
    let released = local_ids(locals, state.num_locals);
    let s = released.release_all(names, edges, state);
    let t = fail_frame(names, edges, s);
    hand_over(
        names,
        edges,
        t,
        values,
        StatusCode::RetBorrowedMutableReference,
    )
}

// Nothing of the frame may be borrowed when it ends.
fn fail_frame(
    names: &[u32; MAX_NAMES],
    edges: &[Row; MAX_EDGES],
    state: AbstractState,
) -> AbstractState
    ensures { (ls : List ℕ) → Does framed (words ls names.now edges.now state) (words ls names.now edges.now result) }
{
    let b = is_frame_borrowed(names, edges, state);
    violate_if(state, b, StatusCode::UnsafeRet)
}

// A call fails on the lowest number that it acquires and that is borrowed. (The Rust has them in a BTreeSet.)
fn fail_acquired(
    names: &[u32; MAX_NAMES],
    edges: &[Row; MAX_EDGES],
    state: AbstractState,
    acquired: &[u16],
) -> AbstractState
    ensures { (ls : List ℕ) → Does (acquiring acquired.now) (words ls names.now edges.now state) (words ls names.now edges.now result) }
{
    match lowest_borrowed(names, edges, state, acquired) {
        Some(low) => fail_global(names, edges, state, low),
        None => ask_root(names, state),
    }
}

// The lowest of these numbers that is borrowed.
fn lowest_borrowed(
    names: &[u32; MAX_NAMES],
    edges: &[Row; MAX_EDGES],
    state: AbstractState,
    resources: &[u16],
) -> Option<u16>
    ensures { (ls : List ℕ) → Fits (words ls names.now edges.now state) → number_in result ≡ lowest_borrowed (running_of (words ls names.now edges.now state)) resources.now }
{
    let mut low = None;
    for r in resources.iter().rev() {
        low = lower_borrowed(names, edges, state, *r, low);
    }
    low
}

// One number more. Where it is not lower it is not looked up.
fn lower_borrowed(
    names: &[u32; MAX_NAMES],
    edges: &[Row; MAX_EDGES],
    state: AbstractState,
    resource: u16,
    low: Option<u16>,
) -> Option<u16>
    ensures { (ls : List ℕ) → Fits (words ls names.now edges.now state) → number_in result ≡ lower_if (is_borrowed (running_of (words ls names.now edges.now state)) resource) resource (number_in low) }
{
    if is_lower(resource, low) {
        if is_borrowed(names, edges, state, resource) {
            return Some(resource);
        }
    }
    low
}

fn is_lower(resource: u16, low: Option<u16>) -> bool
    ensures { result ≡ is_below resource (number_in low) }
{
    match low {
        Some(l) => resource < l,
        None => true,
    }
}

// A number that is borrowed, of a graph that answers.
fn is_borrowed(
    names: &[u32; MAX_NAMES],
    edges: &[Row; MAX_EDGES],
    state: AbstractState,
    resource: u16,
) -> bool
    ensures { (ls : List ℕ) → Fits (words ls names.now edges.now state) → result ≡ is_borrowed (running_of (words ls names.now edges.now state)) resource }
{
    match is_global_borrowed(names, edges, state, resource) {
        Ok(at) => at.is_some(),
        Err(_) => false,
    }
}

fn fail_global(
    names: &[u32; MAX_NAMES],
    edges: &[Row; MAX_EDGES],
    state: AbstractState,
    resource: u16,
) -> AbstractState
    ensures { (ls : List ℕ) → Does (acquiring (resource ∷ [])) (words ls names.now edges.now state) (words ls names.now edges.now result) }
{
    let b = is_global_borrowed(names, edges, state, resource);
    violate_if(state, b, StatusCode::GlobalReference)
}

// Refused where the root cannot be asked.
fn ask_root(names: &[u32; MAX_NAMES], state: AbstractState) -> AbstractState
    ensures { (ls : List ℕ) (es : List (List ℕ)) → Does (acquiring []) (words ls names.now es state) (words ls names.now es result) }
{
    let root = frame_root(state);
    let m = is_mutable(names, state, root);
    pass_refusal(state, m)
}

// References go to a callee or to the caller: the violation, where a mutable one is borrowed.
fn hand_over(
    names: &[u32; MAX_NAMES],
    edges: &[Row; MAX_EDGES],
    state: AbstractState,
    values: Operands,
    code: StatusCode,
) -> AbstractState
    ensures { (ls : List ℕ) → Does (handing (code_of code) (operands_of values)) (words ls names.now edges.now state) (words ls names.now edges.now result) }
{
    let mut s = state;
    let words = values.words();
    for w in words {
        s = hand_value(names, edges, s, value_of(*w), code);
    }
    s
}

fn hand_value(
    names: &[u32; MAX_NAMES],
    edges: &[Row; MAX_EDGES],
    state: AbstractState,
    v: AbstractValue,
    code: StatusCode,
) -> AbstractState
    ensures { (ls : List ℕ) → Does (handing (code_of code) (operand_of v ∷ [])) (words ls names.now edges.now state) (words ls names.now edges.now result) }
{
    match v {
        AbstractValue::Reference(id) => {
            let b = bars_handing_over(names, edges, state, id);
            violate_if(state, b, code)
        }
        AbstractValue::NonReference => state,
    }
}

// Only a mutable reference can be kept from going to a callee or to the caller.
fn bars_handing_over(
    names: &[u32; MAX_NAMES],
    edges: &[Row; MAX_EDGES],
    state: AbstractState,
    id: RefID,
) -> Result<Option<CodeOffset>, Refusal>
    ensures { (ls : List ℕ) → Fits (words ls names.now edges.now state) → low_of result ≡ of_name (graph_in names.now edges.now state.borrow_graph) id.0 (lowest_of (R.bars_handing_over (graph_in names.now edges.now state.borrow_graph) id.0) (graph_in names.now edges.now state.borrow_graph).edges) }
{
    if is_mutable(names, state, id)? {
        return has_consistent_borrows(names, edges, state, id, None);
    }
    Ok(None)
}

fn return_values(
    names: &mut [u32; MAX_NAMES],
    edges: &mut [Row; MAX_EDGES],
    state: AbstractState,
    tokens: &[u8],
    mutable: &Ids,
    all: &Ids,
) -> Called
    ensures { (ls : List ℕ) → Calls (return_values (map token_as (take max_operands tokens.now)) (ids_of mutable.now) (ids_of all.now)) (words ls names.old edges.old state) (words ls names.new edges.new result.state) (operands_of result.values) }
{
    let n = lesser(MAX_OPERANDS, tokens.len());
    let mut list = [0u32; MAX_OPERANDS];
    let mut s = state;
    for (i, token) in tokens[..n].iter().enumerate() {
        s = return_value(names, edges, s, SignatureToken::from(*token), mutable, all);
        list[i] = value_word(s.value);
    }
    let values = Operands { list, len: n };
    Called { state: s, values }
}

// The value that a token stands for. A mutable reference borrows from the mutable arguments, another one from all.
fn return_value(
    names: &mut [u32; MAX_NAMES],
    edges: &mut [Row; MAX_EDGES],
    state: AbstractState,
    token: SignatureToken,
    mutable: &Ids,
    all: &Ids,
) -> AbstractState
    ensures { (ls : List ℕ) → Calls (return_values (token_of token ∷ []) (ids_of mutable.now) (ids_of all.now)) (words ls names.old edges.old state) (words ls names.new edges.new result) (operand_of result.value ∷ []) }
{
    match token {
        SignatureToken::Value => give(state, AbstractValue::NonReference),
        SignatureToken::Reference => return_ref(names, edges, state, false, all),
        SignatureToken::MutableReference => return_ref(names, edges, state, true, mutable),
    }
}

fn return_ref(
    names: &mut [u32; MAX_NAMES],
    edges: &mut [Row; MAX_EDGES],
    state: AbstractState,
    mutable: bool,
    parents: &Ids,
) -> AbstractState
    ensures { (ls : List ℕ) → Calls (return_values (of_ref mutable ∷ []) (ids_of parents.now) (ids_of parents.now)) (words ls names.old edges.old state) (words ls names.new edges.new result) (operand_of result.value ∷ []) }
{
    let id = fresh(state);
    let s = new_ref(names, state, mutable);
    let t = parents.lend_all(names, edges, s, id);
    give(t, AbstractValue::Reference(id))
}
