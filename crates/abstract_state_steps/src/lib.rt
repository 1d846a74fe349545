// The entry points of the instructions, each in the Rust's order of tests. Where each stands in the Rust (abstract_state.rs):
//
//   here                     the Rust
//   value_for                130 `value_for`
//   release_value            275 `release_value`
//   copy_loc                 282 `copy_loc`
//   move_loc                 301 `move_loc`
//   st_loc                   315 `st_loc`
//   freeze_ref               335 `freeze_ref`
//   comparison               346 `comparison`
//   read_ref                 371 `read_ref`
//   write_ref                380 `write_ref`
//   borrow_loc               389 `borrow_loc`
//   borrow_field             406 `borrow_field`
//   borrow_global            430 `borrow_global`
//   move_from                446 `move_from`
//   vector_op                458 `vector_op`
//   vector_element_borrow    472 `vector_element_borrow`
#![tactic(auto)]

ghost use Rattle.std.specs.Prelude.{◌≡◌, ℕ, List};
ghost use Rattle.meaning.specs.Limits.{BORROWFIELD_EXISTS_MUTABLE_BORROW, GLOBAL_REFERENCE};
ghost use Rattle.meaning.specs.Answers as Out;
ghost use Rattle.meaning.specs.AbstractState as S;
ghost use Rattle.meaning.specs.EntryPoints as R;
ghost use Rattle.references.specs.Models.{filter_of};
ghost use Rattle.file_format.specs.Models.{token_of};
ghost use Rattle.vm_status.specs.Models.{code_of};
ghost use Rattle.abstract_state.specs.Models.{operand_of, words, Does, Gives};

use abstract_state::basic_calls::{
    add_borrow, add_copy, add_field_borrow, add_local_borrow, add_resource_borrow, fresh, give,
    local, new_ref, pass_refusal, refuse, release, require_yes, set_local, violate_if,
};
use abstract_state::predicates::{
    bars_reading, has_consistent_borrows, has_consistent_mutable_borrows, has_full_borrows,
    is_global_borrowed, is_global_mutably_borrowed, is_local_borrowed, is_local_mutably_borrowed,
    is_mutable, only_if,
};
use abstract_state::state::{AbstractState, AbstractValue, LOCALS};
use file_format::{LocalIndex, SignatureToken};
use meaning::{MAX_EDGES, MAX_NAMES};
use paths::Label;
use references::RefID;
use references::rows::Row;
use vm_status::{Refusal, StatusCode};

pub fn value_for(
    names: &mut [u32; MAX_NAMES],
    state: AbstractState,
    token: SignatureToken,
) -> AbstractState
    ensures { (ls : List ℕ) (es : List (List ℕ)) → Gives (R.value_for (token_of token)) (words ls names.old es state) (words ls names.new es result) }
{
    match token {
        SignatureToken::Value => give(state, AbstractValue::NonReference),
        SignatureToken::Reference => value_for_ref(names, state, false),
        SignatureToken::MutableReference => value_for_ref(names, state, true),
    }
}

fn value_for_ref(names: &mut [u32; MAX_NAMES], state: AbstractState, mutable: bool) -> AbstractState
    ensures { (ls : List ℕ) (es : List (List ℕ)) → Gives (R.value_for (S.Token.of_ref mutable)) (words ls names.old es state) (words ls names.new es result) }
{
    let id = fresh(state);
    let s = new_ref(names, state, mutable);
    give(s, AbstractValue::Reference(id))
}

pub fn release_value(
    names: &mut [u32; MAX_NAMES],
    edges: &mut [Row; MAX_EDGES],
    state: AbstractState,
    value: AbstractValue,
) -> AbstractState
    ensures { (ls : List ℕ) → Does (R.release_value (operand_of value)) (words ls names.old edges.old state) (words ls names.new edges.new result) }
{
    match value {
        AbstractValue::Reference(id) => release(names, edges, state, id),
        AbstractValue::NonReference => state,
    }
}

pub fn copy_loc(
    locals: &[u32; LOCALS],
    names: &mut [u32; MAX_NAMES],
    edges: &mut [Row; MAX_EDGES],
    state: AbstractState,
    i: LocalIndex,
) -> AbstractState
    ensures { Gives (R.copy_loc i.0) (words locals.now names.old edges.old state) (words locals.now names.new edges.new result) }
{
    match local(locals, state, i) {
        Some(AbstractValue::Reference(id)) => copy_ref(names, edges, state, id),
        Some(AbstractValue::NonReference) => {
            let b = is_local_mutably_borrowed(names, edges, state, i);
            let s = violate_if(state, b, StatusCode::CopyLocExistsBorrow);
            give(s, AbstractValue::NonReference)
        }
        None => {
            let s = refuse(state, Refusal::AbsentLocal);
            give(s, AbstractValue::NonReference)
        }
    }
}

// The copy of a reference.
fn copy_ref(
    names: &mut [u32; MAX_NAMES],
    edges: &mut [Row; MAX_EDGES],
    state: AbstractState,
    id: RefID,
) -> AbstractState
    ensures { (ls : List ℕ) → Gives (λ s. R.copy_of s 0 (S.Local.ref id.0)) (words ls names.old edges.old state) (words ls names.new edges.new result) }
{
    let m = is_mutable(names, state, id);
    let new = fresh(state);
    let s = pass_refusal(state, m);
    // (Where the question was refused the state has stopped, and nothing is made.)
    let t = new_ref(names, s, m.unwrap_or(false));
    let u = add_copy(names, edges, t, id, new);
    give(u, AbstractValue::Reference(new))
}

pub fn move_loc(
    locals: &mut [u32; LOCALS],
    names: &[u32; MAX_NAMES],
    edges: &[Row; MAX_EDGES],
    state: AbstractState,
    i: LocalIndex,
) -> AbstractState
    ensures { Gives (R.move_loc i.0) (words locals.old names.now edges.now state) (words locals.new names.now edges.now result) }
{
    match local(locals, state, i) {
        Some(AbstractValue::Reference(id)) => {
            set_local(locals, i, None);
            give(state, AbstractValue::Reference(id))
        }
        Some(AbstractValue::NonReference) => {
            let b = is_local_borrowed(names, edges, state, i);
            let s = violate_if(state, b, StatusCode::MoveLocExistsBorrow);
            set_local(locals, i, None);
            give(s, AbstractValue::NonReference)
        }
        None => {
            let s = refuse(state, Refusal::AbsentLocal);
            give(s, AbstractValue::NonReference)
        }
    }
}

pub fn st_loc(
    locals: &mut [u32; LOCALS],
    names: &mut [u32; MAX_NAMES],
    edges: &mut [Row; MAX_EDGES],
    state: AbstractState,
    i: LocalIndex,
    new: AbstractValue,
) -> AbstractState
    ensures { Does (R.st_loc i.0 (operand_of new)) (words locals.old names.old edges.old state) (words locals.new names.new edges.new result) }
{
    let old = local(locals, state, i);
    set_local(locals, i, Some(new));
    match old {
        Some(AbstractValue::Reference(id)) => release(names, edges, state, id),
        Some(AbstractValue::NonReference) => {
            let b = is_local_borrowed(names, edges, state, i);
            violate_if(state, b, StatusCode::StLocUnsafeToDestroy)
        }
        None => state,
    }
}

pub fn freeze_ref(
    names: &mut [u32; MAX_NAMES],
    edges: &mut [Row; MAX_EDGES],
    state: AbstractState,
    id: RefID,
) -> AbstractState
    ensures { (ls : List ℕ) → Gives (R.freeze_ref id.0) (words ls names.old edges.old state) (words ls names.new edges.new result) }
{
    let m = is_mutable(names, state, id);
    let b = has_consistent_mutable_borrows(names, edges, state, id, None);
    let new = fresh(state);
    let s = require_yes(state, m, Refusal::Immutable);
    let t = violate_if(s, b, StatusCode::FreezeRefExistsMutableBorrow);
    let u = new_ref(names, t, false);
    let v = add_copy(names, edges, u, id, new);
    let w = release(names, edges, v, id);
    give(w, AbstractValue::Reference(new))
}

pub fn comparison(
    names: &mut [u32; MAX_NAMES],
    edges: &mut [Row; MAX_EDGES],
    state: AbstractState,
    v1: AbstractValue,
    v2: AbstractValue,
) -> AbstractState
    ensures { (ls : List ℕ) → Gives (R.comparison (operand_of v1) (operand_of v2)) (words ls names.old edges.old state) (words ls names.new edges.new result) }
{
    match (v1, v2) {
        (AbstractValue::Reference(id1), AbstractValue::Reference(id2)) => {
            compare_refs(names, edges, state, id1, id2)
        }
        (AbstractValue::NonReference, AbstractValue::NonReference) => {
            give(state, AbstractValue::NonReference)
        }
        _ => {
            let s = refuse(state, Refusal::WrongOperand);
            give(s, AbstractValue::NonReference)
        }
    }
}

fn compare_refs(
    names: &mut [u32; MAX_NAMES],
    edges: &mut [Row; MAX_EDGES],
    state: AbstractState,
    id1: RefID,
    id2: RefID,
) -> AbstractState
    ensures { (ls : List ℕ) → Gives (R.comparison (S.Operand.reference id1.0) (S.Operand.reference id2.0)) (words ls names.old edges.old state) (words ls names.new edges.new result) }
{
    let at = None;
    let code = StatusCode::ReadRefExistsMutableBorrow;
    let s = violate_if_unreadable(names, edges, state, id1, at, code);
    let t = violate_if_unreadable(names, edges, s, id2, at, code);
    let u = release(names, edges, t, id1);
    let v = release(names, edges, u, id2);
    give(v, AbstractValue::NonReference)
}

// The violation, where the reference is not readable.
fn violate_if_unreadable(
    names: &[u32; MAX_NAMES],
    edges: &[Row; MAX_EDGES],
    state: AbstractState,
    id: RefID,
    at: Option<Label>,
    code: StatusCode,
) -> AbstractState
    ensures { (ls : List ℕ) → Does (λ s. R.needs_name s.graph id.0 (R.fails s (R.bars_reading s.graph id.0 (filter_of at)) (code_of code) (Out.Outcome.done s))) (words ls names.now edges.now state) (words ls names.now edges.now result) }
{
    let b = bars_reading(names, edges, state, id, at);
    violate_if(state, b, code)
}

pub fn read_ref(
    names: &mut [u32; MAX_NAMES],
    edges: &mut [Row; MAX_EDGES],
    state: AbstractState,
    id: RefID,
) -> AbstractState
    ensures { (ls : List ℕ) → Gives (R.read_ref id.0) (words ls names.old edges.old state) (words ls names.new edges.new result) }
{
    let at = None;
    let s = violate_if_unreadable(
        names,
        edges,
        state,
        id,
        at,
        StatusCode::ReadRefExistsMutableBorrow,
    );
    let t = release(names, edges, s, id);
    give(t, AbstractValue::NonReference)
}

pub fn write_ref(
    names: &mut [u32; MAX_NAMES],
    edges: &mut [Row; MAX_EDGES],
    state: AbstractState,
    id: RefID,
) -> AbstractState
    ensures { (ls : List ℕ) → Does (R.write_ref id.0) (words ls names.old edges.old state) (words ls names.new edges.new result) }
{
    let m = is_mutable(names, state, id);
    let b = has_consistent_borrows(names, edges, state, id, None);
    let s = require_yes(state, m, Refusal::Immutable);
    let t = violate_if(s, b, StatusCode::WriteRefExistsBorrow);
    release(names, edges, t, id)
}

pub fn borrow_loc(
    names: &mut [u32; MAX_NAMES],
    edges: &mut [Row; MAX_EDGES],
    state: AbstractState,
    mutable: bool,
    i: LocalIndex,
) -> AbstractState
    ensures { (ls : List ℕ) → Gives (R.borrow_loc mutable i.0) (words ls names.old edges.old state) (words ls names.new edges.new result) }
{
    let b = is_local_mutably_borrowed(names, edges, state, i);
    let new = fresh(state);
    let c = only_if(!mutable, b);
    let s = violate_if(state, c, StatusCode::BorrowLocExistsBorrow);
    let t = new_ref(names, s, mutable);
    let u = add_local_borrow(names, edges, t, i, new);
    give(u, AbstractValue::Reference(new))
}

pub fn borrow_field(
    names: &mut [u32; MAX_NAMES],
    edges: &mut [Row; MAX_EDGES],
    state: AbstractState,
    mutable: bool,
    id: RefID,
    field: u16,
) -> AbstractState
    ensures { (ls : List ℕ) → Gives (R.borrow_field mutable id.0 field) (words ls names.old edges.old state) (words ls names.new edges.new result) }
{
    let new = fresh(state);
    let s = violate_if_field_borrowed(names, edges, state, mutable, id, field);
    let t = new_ref(names, s, mutable);
    let u = add_field_borrow(names, edges, t, id, field, new);
    let v = release(names, edges, u, id);
    give(v, AbstractValue::Reference(new))
}

// A mutable borrow fails on an empty-path borrow; another one, where the field is not readable.
fn violate_if_field_borrowed(
    names: &[u32; MAX_NAMES],
    edges: &[Row; MAX_EDGES],
    state: AbstractState,
    mutable: bool,
    id: RefID,
    field: u16,
) -> AbstractState
    ensures { (ls : List ℕ) → Does (λ s. R.needs_name s.graph id.0 (R.fails s (R.bars_field_borrow mutable s.graph id.0 field) BORROWFIELD_EXISTS_MUTABLE_BORROW (Out.Outcome.done s))) (words ls names.now edges.now state) (words ls names.now edges.now result) }
{
    let code = StatusCode::BorrowFieldExistsMutableBorrow;
    if mutable {
        let b = has_full_borrows(names, edges, state, id);
        return violate_if(state, b, code);
    }
    let at = Some(Label::Field(field));
    violate_if_unreadable(names, edges, state, id, at, code)
}

pub fn borrow_global(
    names: &mut [u32; MAX_NAMES],
    edges: &mut [Row; MAX_EDGES],
    state: AbstractState,
    mutable: bool,
    resource: u16,
) -> AbstractState
    ensures { (ls : List ℕ) → Gives (R.borrow_global mutable resource) (words ls names.old edges.old state) (words ls names.new edges.new result) }
{
    let new = fresh(state);
    let s = violate_if_resource_borrowed(names, edges, state, mutable, resource);
    let t = new_ref(names, s, mutable);
    let u = add_resource_borrow(names, edges, t, resource, new);
    give(u, AbstractValue::Reference(new))
}

// A mutable borrow fails on any borrow; another one, on a mutable borrow.
fn violate_if_resource_borrowed(
    names: &[u32; MAX_NAMES],
    edges: &[Row; MAX_EDGES],
    state: AbstractState,
    mutable: bool,
    resource: u16,
) -> AbstractState
    ensures { (ls : List ℕ) → Does (λ s. R.needs_name s.graph s.root (R.fails s (R.bars_resource_borrow mutable s.graph s.root resource) GLOBAL_REFERENCE (Out.Outcome.done s))) (words ls names.now edges.now state) (words ls names.now edges.now result) }
{
    if mutable {
        let b = is_global_borrowed(names, edges, state, resource);
        return violate_if(state, b, StatusCode::GlobalReference);
    }
    let b = is_global_mutably_borrowed(names, edges, state, resource);
    violate_if(state, b, StatusCode::GlobalReference)
}

pub fn move_from(
    names: &[u32; MAX_NAMES],
    edges: &[Row; MAX_EDGES],
    state: AbstractState,
    resource: u16,
) -> AbstractState
    ensures { (ls : List ℕ) → Gives (R.move_from resource) (words ls names.now edges.now state) (words ls names.now edges.now result) }
{
    let b = is_global_borrowed(names, edges, state, resource);
    let s = violate_if(state, b, StatusCode::GlobalReference);
    give(s, AbstractValue::NonReference)
}

// A mutable vector step wants a mutable reference with no borrow.
fn vector_test(
    names: &[u32; MAX_NAMES],
    edges: &[Row; MAX_EDGES],
    state: AbstractState,
    mutable: bool,
    id: RefID,
    code: StatusCode,
) -> AbstractState
    ensures { (ls : List ℕ) → Does (λ s. R.needs_name s.graph id.0 (R.vector_test mutable s id.0 (code_of code) (Out.Outcome.done s))) (words ls names.now edges.now state) (words ls names.now edges.now result) }
{
    let m = is_mutable(names, state, id);
    if mutable {
        let b = has_consistent_borrows(names, edges, state, id, None);
        let s = require_yes(state, m, Refusal::Immutable);
        return violate_if(s, b, code);
    }
    pass_refusal(state, m)
}

pub fn vector_op(
    names: &mut [u32; MAX_NAMES],
    edges: &mut [Row; MAX_EDGES],
    state: AbstractState,
    vector: AbstractValue,
    mutable: bool,
) -> AbstractState
    ensures { (ls : List ℕ) → Does (R.vector_op (operand_of vector) mutable) (words ls names.old edges.old state) (words ls names.new edges.new result) }
{
    match vector {
        AbstractValue::Reference(id) => {
            let s = vector_test(
                names,
                edges,
                state,
                mutable,
                id,
                StatusCode::VecUpdateExistsMutableBorrow,
            );
            release(names, edges, s, id)
        }
        AbstractValue::NonReference => refuse(state, Refusal::WrongOperand),
    }
}

pub fn vector_element_borrow(
    names: &mut [u32; MAX_NAMES],
    edges: &mut [Row; MAX_EDGES],
    state: AbstractState,
    vector: AbstractValue,
    mutable: bool,
) -> AbstractState
    ensures { (ls : List ℕ) → Gives (R.vector_element_borrow (operand_of vector) mutable) (words ls names.old edges.old state) (words ls names.new edges.new result) }
{
    match vector {
        AbstractValue::Reference(id) => {
            let new = fresh(state);
            let s = vector_test(
                names,
                edges,
                state,
                mutable,
                id,
                StatusCode::VecBorrowElementExistsMutableBorrow,
            );
            let t = new_ref(names, s, mutable);
            let u = add_borrow(names, edges, t, id, new);
            let v = release(names, edges, u, id);
            give(v, AbstractValue::Reference(new))
        }
        AbstractValue::NonReference => {
            let s = refuse(state, Refusal::WrongOperand);
            give(s, AbstractValue::NonReference)
        }
    }
}
