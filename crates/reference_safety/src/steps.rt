// One step for each kind of instruction, in the Rust's order of tests. A taking or a push that is refused is the step's answer; a state that has
// stopped goes through the calls as it is. (The number of returns matters to Ret alone.) Where each stands in the Rust, as an arm of 136
// `execute_inner` (mod.rs):
//
//   here             the Rust
//   pop_top          143 Pop
//   copy_loc         145 CopyLoc
//   move_loc         149 MoveLoc
//   st_loc           153 StLoc
//   freeze_ref       155 FreezeRef
//   compare          160 Eq and Neq
//   read_ref         166 ReadRef
//   write_ref        171 WriteRef
//   borrow_loc       178 MutBorrowLoc, 182 ImmBorrowLoc
//   borrow_field     186 MutBorrowField, 199 ImmBorrowField
//   borrow_global    213 MutBorrowGlobal, 224 ImmBorrowGlobal
//   move_from        235 MoveFrom
//   call             67 `call`
//   ret              257 Ret
//   values           267 to 348 and 382, the instructions on values alone
//   move_to          279 MoveTo
//   vector_op        349 VecLen, 368 VecPushBack, 374 VecPopBack, 391 VecSwap
//   borrow_element   355 VecImmBorrow, 361 VecMutBorrow
ghost use Rattle.std.specs.Prelude.{ℕ, List, map, take};
ghost use Rattle.meaning.specs.Steps.{Instr, step_on};
ghost use Rattle.meaning.specs.Listing.{token_as};
ghost use Rattle.file_format.specs.Models.{token_of};
ghost use Rattle.abstract_state.specs.Models.{words};
ghost use Rattle.operand_stack.specs.Models.{held};
ghost use Rattle.reference_safety.specs.Models.{board, Runs};

use crate::machine::{Machine, push_new};
use abstract_state::state::LOCALS;
use file_format::{LocalIndex, SignatureToken};
use listing::decode::Decoded;
use meaning::{MAX_EDGES, MAX_NAMES, ROOM, lesser};
use references::rows::Row;
use vm_status::Refusal;

pub(crate) fn pop_top(
    names: &mut [u32; MAX_NAMES],
    edges: &mut [Row; MAX_EDGES],
    m: &mut Machine,
) -> Result<(), Refusal>
    ensures { (ls : List ℕ) → Runs (step_on 0 Instr.Pop (held m.old.stack)) (words ls names.old edges.old m.old.state) result (board ls names.new edges.new m.new) }
{
    let value = m.stack.pop()?;
    m.state = abstract_state_steps::release_value(names, edges, m.state, value);
    Ok(())
}

pub(crate) fn copy_loc(
    locals: &[u32; LOCALS],
    names: &mut [u32; MAX_NAMES],
    edges: &mut [Row; MAX_EDGES],
    m: &mut Machine,
    local: LocalIndex,
) -> Result<(), Refusal>
    ensures { Runs (step_on 0 (Instr.CopyLoc local.0) (held m.old.stack)) (words locals.now names.old edges.old m.old.state) result (board locals.now names.new edges.new m.new) }
{
    m.state = abstract_state_steps::copy_loc(locals, names, edges, m.state, local);
    m.push_answer()
}

pub(crate) fn move_loc(
    locals: &mut [u32; LOCALS],
    names: &[u32; MAX_NAMES],
    edges: &[Row; MAX_EDGES],
    m: &mut Machine,
    local: LocalIndex,
) -> Result<(), Refusal>
    ensures { Runs (step_on 0 (Instr.MoveLoc local.0) (held m.old.stack)) (words locals.old names.now edges.now m.old.state) result (board locals.new names.now edges.now m.new) }
{
    m.state = abstract_state_steps::move_loc(locals, names, edges, m.state, local);
    m.push_answer()
}

pub(crate) fn st_loc(
    locals: &mut [u32; LOCALS],
    names: &mut [u32; MAX_NAMES],
    edges: &mut [Row; MAX_EDGES],
    m: &mut Machine,
    local: LocalIndex,
) -> Result<(), Refusal>
    ensures { Runs (step_on 0 (Instr.StLoc local.0) (held m.old.stack)) (words locals.old names.old edges.old m.old.state) result (board locals.new names.new edges.new m.new) }
{
    let value = m.stack.pop()?;
    m.state = abstract_state_steps::st_loc(locals, names, edges, m.state, local, value);
    Ok(())
}

pub(crate) fn freeze_ref(
    names: &mut [u32; MAX_NAMES],
    edges: &mut [Row; MAX_EDGES],
    m: &mut Machine,
) -> Result<(), Refusal>
    ensures { (ls : List ℕ) → Runs (step_on 0 Instr.FreezeRef (held m.old.stack)) (words ls names.old edges.old m.old.state) result (board ls names.new edges.new m.new) }
{
    let id = m.stack.pop_ref()?;
    m.state = abstract_state_steps::freeze_ref(names, edges, m.state, id);
    m.push_answer()
}

pub(crate) fn compare(
    names: &mut [u32; MAX_NAMES],
    edges: &mut [Row; MAX_EDGES],
    m: &mut Machine,
) -> Result<(), Refusal>
    ensures { (ls : List ℕ) → Runs (step_on 0 Instr.Compare (held m.old.stack)) (words ls names.old edges.old m.old.state) result (board ls names.new edges.new m.new) }
{
    let v1 = m.stack.pop()?;
    let v2 = m.stack.pop()?;
    m.state = abstract_state_steps::comparison(names, edges, m.state, v1, v2);
    m.push_answer()
}

pub(crate) fn read_ref(
    names: &mut [u32; MAX_NAMES],
    edges: &mut [Row; MAX_EDGES],
    m: &mut Machine,
) -> Result<(), Refusal>
    ensures { (ls : List ℕ) → Runs (step_on 0 Instr.ReadRef (held m.old.stack)) (words ls names.old edges.old m.old.state) result (board ls names.new edges.new m.new) }
{
    let id = m.stack.pop_ref()?;
    m.state = abstract_state_steps::read_ref(names, edges, m.state, id);
    m.push_answer()
}

pub(crate) fn write_ref(
    names: &mut [u32; MAX_NAMES],
    edges: &mut [Row; MAX_EDGES],
    m: &mut Machine,
) -> Result<(), Refusal>
    ensures { (ls : List ℕ) → Runs (step_on 0 Instr.WriteRef (held m.old.stack)) (words ls names.old edges.old m.old.state) result (board ls names.new edges.new m.new) }
{
    let id = m.stack.pop_ref()?;
    m.stack.pop_values(1)?;
    m.state = abstract_state_steps::write_ref(names, edges, m.state, id);
    Ok(())
}

pub(crate) fn borrow_loc(
    names: &mut [u32; MAX_NAMES],
    edges: &mut [Row; MAX_EDGES],
    m: &mut Machine,
    local: LocalIndex,
    mutable: bool,
) -> Result<(), Refusal>
    ensures { (ls : List ℕ) → Runs (step_on 0 (Instr.BorrowLoc local.0 mutable) (held m.old.stack)) (words ls names.old edges.old m.old.state) result (board ls names.new edges.new m.new) }
{
    m.state = abstract_state_steps::borrow_loc(names, edges, m.state, mutable, local);
    m.push_answer()
}

pub(crate) fn borrow_field(
    names: &mut [u32; MAX_NAMES],
    edges: &mut [Row; MAX_EDGES],
    m: &mut Machine,
    field: u16,
    mutable: bool,
) -> Result<(), Refusal>
    ensures { (ls : List ℕ) → Runs (step_on 0 (Instr.BorrowField field mutable) (held m.old.stack)) (words ls names.old edges.old m.old.state) result (board ls names.new edges.new m.new) }
{
    let id = m.stack.pop_ref()?;
    m.state = abstract_state_steps::borrow_field(names, edges, m.state, mutable, id, field);
    m.push_answer()
}

pub(crate) fn borrow_global(
    names: &mut [u32; MAX_NAMES],
    edges: &mut [Row; MAX_EDGES],
    m: &mut Machine,
    resource: u16,
    mutable: bool,
) -> Result<(), Refusal>
    ensures { (ls : List ℕ) → Runs (step_on 0 (Instr.BorrowGlobal resource mutable) (held m.old.stack)) (words ls names.old edges.old m.old.state) result (board ls names.new edges.new m.new) }
{
    m.stack.pop_values(1)?;
    m.state = abstract_state_steps::borrow_global(names, edges, m.state, mutable, resource);
    m.push_answer()
}

pub(crate) fn move_from(
    names: &[u32; MAX_NAMES],
    edges: &[Row; MAX_EDGES],
    m: &mut Machine,
    resource: u16,
) -> Result<(), Refusal>
    ensures { (ls : List ℕ) → Runs (step_on 0 (Instr.MoveFrom resource) (held m.old.stack)) (words ls names.now edges.now m.old.state) result (board ls names.now edges.now m.new) }
{
    m.stack.pop_values(1)?;
    m.state = abstract_state_steps::move_from(names, edges, m.state, resource);
    m.push_answer()
}

pub(crate) fn call(
    names: &mut [u32; MAX_NAMES],
    edges: &mut [Row; MAX_EDGES],
    m: &mut Machine,
    parameters: u8,
    d: Decoded,
) -> Result<(), Refusal>
    ensures { (ls : List ℕ) → Runs (step_on 0 (Instr.Call parameters (take d.acquired_count d.acquired) (map token_as (take d.token_count d.tokens))) (held m.old.stack)) (words ls names.old edges.old m.old.state) result (board ls names.new edges.new m.new) }
{
    let arguments = m.stack.pop_many(parameters)?;
    let a = abstract_state_calls::call(
        names,
        edges,
        m.state,
        arguments,
        &d.acquired[..lesser(d.acquired_count, ROOM)],
        &d.tokens[..lesser(d.token_count, ROOM)],
    );
    m.state = a.state;
    m.stack.push_all(&a.values)
}

pub(crate) fn ret(
    locals: &[u32; LOCALS],
    names: &mut [u32; MAX_NAMES],
    edges: &mut [Row; MAX_EDGES],
    m: &mut Machine,
    returns: u8,
) -> Result<(), Refusal>
    ensures { Runs (step_on returns Instr.Ret (held m.old.stack)) (words locals.now names.old edges.old m.old.state) result (board locals.now names.new edges.new m.new) }
{
    let values = m.stack.pop_many(returns)?;
    m.state = abstract_state_calls::ret(locals, names, edges, m.state, values);
    Ok(())
}

pub(crate) fn values(
    names: &mut [u32; MAX_NAMES],
    m: &mut Machine,
    takes: u16,
    pushes: u16,
    token: SignatureToken,
) -> Result<(), Refusal>
    ensures { (ls : List ℕ) (es : List (List ℕ)) → Runs (step_on 0 (Instr.Values takes pushes (token_of token)) (held m.old.stack)) (words ls names.old es m.old.state) result (board ls names.new es m.new) }
{
    m.stack.pop_values(takes)?;
    push_new(names, m, pushes, token)
}

pub(crate) fn move_to(
    names: &mut [u32; MAX_NAMES],
    edges: &mut [Row; MAX_EDGES],
    m: &mut Machine,
) -> Result<(), Refusal>
    ensures { (ls : List ℕ) → Runs (step_on 0 Instr.MoveTo (held m.old.stack)) (words ls names.old edges.old m.old.state) result (board ls names.new edges.new m.new) }
{
    let value = m.stack.pop_under(1)?;
    m.state = abstract_state_steps::release_value(names, edges, m.state, value);
    Ok(())
}

pub(crate) fn vector_op(
    names: &mut [u32; MAX_NAMES],
    edges: &mut [Row; MAX_EDGES],
    m: &mut Machine,
    takes: u8,
    mutable: bool,
    pushes: u8,
    token: SignatureToken,
) -> Result<(), Refusal>
    ensures { (ls : List ℕ) → Runs (step_on 0 (Instr.VectorOp takes mutable pushes (token_of token)) (held m.old.stack)) (words ls names.old edges.old m.old.state) result (board ls names.new edges.new m.new) }
{
    let value = m.stack.pop_under(takes as u16)?;
    m.state = abstract_state_steps::vector_op(names, edges, m.state, value, mutable);
    push_new(names, m, pushes as u16, token)
}

pub(crate) fn borrow_element(
    names: &mut [u32; MAX_NAMES],
    edges: &mut [Row; MAX_EDGES],
    m: &mut Machine,
    mutable: bool,
) -> Result<(), Refusal>
    ensures { (ls : List ℕ) → Runs (step_on 0 (Instr.BorrowElement mutable) (held m.old.stack)) (words ls names.old edges.old m.old.state) result (board ls names.new edges.new m.new) }
{
    let value = m.stack.pop_under(1)?;
    m.state = abstract_state_steps::vector_element_borrow(names, edges, m.state, value, mutable);
    m.push_answer()
}
