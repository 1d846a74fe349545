// One instruction, and one block from its kept state to the state that its successors get. Where each stands in the Rust (mod.rs):
//
//   here                             the Rust
//   execute_inner, _on_references    136 `execute_inner`
//   run_block                        absint.rs 161 `execute_block`
//   finish                           405 `execute`, from its test for the last instruction on
ghost use Rattle.std.specs.Prelude.{◌≡◌, ℕ, suc, ◌+◌, ◌-◌, true, ◌&&◌, List, [], ◌==◌};
ghost use Rattle.meaning.specs.Steps.{step};
ghost use Rattle.meaning.specs.Blocks as Q;
ghost use Rattle.listing.specs.Models.{decoded_of, block_of, routine_of};
ghost use Rattle.abstract_state.specs.Models.{words, running_of};
ghost use Rattle.operand_stack.specs.Models.{held};
ghost use Rattle.reference_safety.specs.Models.{board, Steps, StepsTo, on_references, state_in, Ends};

use crate::machine::Machine;
use crate::steps::{
    borrow_element, borrow_field, borrow_global, borrow_loc, call, compare, copy_loc, freeze_ref,
    move_from, move_loc, move_to, pop_top, read_ref, ret, st_loc, values, vector_op, write_ref,
};
use abstract_state::basic_calls::refuse;
use abstract_state::state::{AbstractState, LOCALS};
use abstract_state_join::canonical::construct_canonical_state;
use file_format::CodeOffset;
use listing::decode::{Decoded, Instruction, decode};
use listing::{Block, Routine};
use meaning::{MAX_EDGES, MAX_INSTRUCTIONS, MAX_NAMES, lesser};
use operand_stack::OperandStack;
use references::rows::Row;
use vm_status::Refusal;

// A block's end: the state that its successors get, or the violation or refusal in that state's numbers, with its place. Without successors,
// and beside a number, the rest of the state and its arrays are free, except that they fit; the place is free where no number is.
#[derive(Clone, Copy)]
pub struct Ran {
    pub place: CodeOffset,
    pub state: AbstractState,
}

// An instruction on references; no other comes here.
fn execute_on_references(
    names: &mut [u32; MAX_NAMES],
    edges: &mut [Row; MAX_EDGES],
    m: &mut Machine,
    i: Instruction,
) -> Result<(), Refusal>
    requires { on_references i ≡ true }
    ensures { (ls : List ℕ) (returns : ℕ) (d : Decoded) → d.instruction ≡ i → StepsTo (step returns (decoded_of d)) (board ls names.old edges.old m.old) result (board ls names.new edges.new m.new) }
{
    match i {
        Instruction::FreezeRef => freeze_ref(names, edges, m),
        Instruction::Compare => compare(names, edges, m),
        Instruction::ReadRef => read_ref(names, edges, m),
        Instruction::WriteRef => write_ref(names, edges, m),
        Instruction::BorrowLoc(local, mutable) => { borrow_loc(names, edges, m, local, mutable) }
        Instruction::BorrowField(n, mutable) => borrow_field(names, edges, m, n, mutable),
        Instruction::BorrowGlobal(n, mutable) => borrow_global(names, edges, m, n, mutable),
        Instruction::VectorOp(n, mutable, k, token) => {
            vector_op(names, edges, m, n, mutable, k, token)
        }
        Instruction::BorrowElement(mutable) => borrow_element(names, edges, m, mutable),
        _ => Ok(()),
    }
}

fn execute_inner(
    locals: &mut [u32; LOCALS],
    names: &mut [u32; MAX_NAMES],
    edges: &mut [Row; MAX_EDGES],
    m: &mut Machine,
    d: Decoded,
    returns: u8,
) -> Result<(), Refusal>
    ensures { StepsTo (step returns (decoded_of d)) (board locals.old names.old edges.old m.old) result (board locals.new names.new edges.new m.new) }
{
    let i = d.instruction;
    match i {
        Instruction::Pop => pop_top(names, edges, m),
        Instruction::CopyLoc(local) => copy_loc(locals, names, edges, m, local),
        Instruction::MoveLoc(local) => move_loc(locals, names, edges, m, local),
        Instruction::StLoc(local) => st_loc(locals, names, edges, m, local),
        Instruction::MoveFrom(n) => move_from(names, edges, m, n),
        Instruction::Call(n) => call(names, edges, m, n, d),
        Instruction::Ret => ret(locals, names, edges, m, returns),
        Instruction::Values(n, k, token) => values(names, m, n, k, token),
        Instruction::MoveTo => move_to(names, edges, m),
        _ => execute_on_references(names, edges, m, i),
    }
}

pub fn execute(
    locals: &mut [u32; LOCALS],
    names: &mut [u32; MAX_NAMES],
    edges: &mut [Row; MAX_EDGES],
    m: &mut Machine,
    d: Decoded,
    returns: u8,
)
    ensures { Steps (step returns (decoded_of d)) (board locals.old names.old edges.old m.old) (board locals.new names.new edges.new m.new) }
{
    let answer = execute_inner(locals, names, edges, m, d, returns);
    m.heed(answer);
}

// The offset behind a block's last instruction. (One whose exit lies before its entry has one instruction.)
fn past(b: Block) -> usize
    ensures { result ≡ b.entry.0 + suc (b.exit.0 - b.entry.0) }
{
    b.entry.0.max(b.exit.0) as usize + 1
}

// What a block starts with, in a routine of so many locals.
fn begin(state: AbstractState, locals: u8) -> Machine
    ensures empty { held result.stack ≡ [] }
    ensures violation { result.state.violation ≡ 0 }
    ensures refusal { result.state.refusal ≡ 0 }
    ensures graph { result.state.borrow_graph ≡ state.borrow_graph }
    ensures running { (ls ns : List ℕ) (es : List (List ℕ)) → running_of (words ls ns es result.state) ≡ (Q.start_machine locals (state_in locals (words ls ns es state))).state }
{
    Machine {
        state: AbstractState {
            violation: 0,
            refusal: 0,
            num_locals: locals,
            next_id: locals as u32 + 1,
            blurred: 0,
            offset: CodeOffset(0),
            ..state
        },
        stack: OperandStack::new(),
    }
}

// The end of a block whose instructions are done: 14, or, with successors, the names changed.
fn finish(
    b: Block,
    locals: &mut [u32; LOCALS],
    names: &mut [u32; MAX_NAMES],
    edges: &mut [Row; MAX_EDGES],
    m: &Machine,
) -> Ran
    requires { (m.now.state.violation == 0 && m.now.state.refusal == 0) ≡ true }
    ensures { Ends (block_of b) (words locals.old names.old edges.old m.now.state) (words locals.new names.new edges.new result.state) result.place.0 (Q.finish (block_of b) (running_of (words locals.old names.old edges.old m.now.state)) (held m.now.stack)) }
{
    let state = m.state;
    let place = b.exit;
    if m.stack.depth() != 0 {
        return Ran {
            place,
            state: refuse(state, Refusal::OperandsLeft),
        };
    }
    if b.count == 0 {
        return Ran { place, state };
    }
    Ran {
        place,
        state: construct_canonical_state(locals, names, edges, state),
    }
}

// A state's locals are read as many as the routine has. `code` says where the record of each instruction starts.
pub fn run_block(
    listing: &[u8],
    routine: Routine,
    code: &[u16; MAX_INSTRUCTIONS],
    b: Block,
    locals: &mut [u32; LOCALS],
    names: &mut [u32; MAX_NAMES],
    edges: &mut [Row; MAX_EDGES],
    state: AbstractState,
) -> Ran
    ensures { Ends (block_of b) (words locals.old names.old edges.old state) (words locals.new names.new edges.new result.state) result.place.0 (Q.run_block (routine_of listing.now code.now routine) (block_of b) (state_in routine.locals (words locals.old names.old edges.old state))) }
{
    let mut m = begin(state, routine.locals);
    let end = lesser(lesser(routine.code_count, MAX_INSTRUCTIONS), past(b));
    // (By offset: an `enumerate` over the block's words would count from 0.)
    for k in b.entry.0 as usize..end {
        let place = CodeOffset(k as u16);
        m.at_offset(place);
        execute(
            locals,
            names,
            edges,
            &mut m,
            decode(listing, code[k]),
            routine.returns,
        );
        if !m.goes_on() {
            return Ran {
                place,
                state: m.state,
            };
        }
    }
    finish(b, locals, names, edges, &m)
}
