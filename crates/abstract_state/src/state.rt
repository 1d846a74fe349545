// What a local or an operand is, and what a state has beside its arrays. Where each stands in the Rust (abstract_state.rs):
//
//   here             the Rust
//   AbstractValue    23 `AbstractValue`; a match on it stands for 30 `is_reference`, 38 `is_value` and 43 `ref_id`
//   (an Option)      what 74 `locals` has for a local, if it has an entry
//   Operands         a `Vec<AbstractValue>`: a call's arguments and what it returns
//   AbstractState    72 `AbstractState`, without the function and the locals; the graph's arrays stand beside it
ghost use Rattle.std.specs.Prelude.{◌≡◌, ◌≤◌, map, length};
ghost use Rattle.meaning.specs.Limits.{max_operands};
ghost use Rattle.abstract_state.specs.Models.{operand_in, operands_of};

use borrow_graph::graph::BorrowGraph;
use file_format::CodeOffset;
use meaning::{MAX_LOCALS, MAX_OPERANDS, lesser};
use references::RefID;

// The words of the locals.
pub const LOCALS: usize = MAX_LOCALS as usize;

#[derive(Clone, Copy, PartialEq, Eq)]
pub enum AbstractValue {
    Reference(RefID),
    NonReference,
}

// Operands as words. What lies from `len` on is free; a `len` beyond 16 reads as 16. (A fixed array with its length beside it: no heap is allowed.)
#[derive(Clone, Copy)]
pub struct Operands {
    pub list: [u32; MAX_OPERANDS],
    pub len: usize,
}

impl Operands {
    pub fn words(&self) -> &[u32]
        ensures all { map operand_in result.now ≡ operands_of self.now }
        ensures few { length result.now ≤ max_operands }
    {
        &self.list[..lesser(self.len, MAX_OPERANDS)]
    }
}

// A state stops at its first violation or refusal: one of the two is its number (the violation, where both are given), and both are 0
// while it goes on. A stopped state's number is handed on, with `borrowed_at` and `blurred` beside a violation; what else it holds is free.
// `value` is what the last step answered, if it answers a value, else free. `offset` is that of the instruction that runs, and new edges get it.
// The frame root has the name `num_locals`, and `next_id` is the next fresh name. `blurred` counts the sets that the graph calls have blurred; it
// stays at the most that it can hold.
#[derive(Clone, Copy)]
pub struct AbstractState {
    pub violation: u8,
    pub borrowed_at: CodeOffset,
    pub refusal: u8,
    pub offset: CodeOffset,
    pub value: AbstractValue,
    pub num_locals: u8,
    pub next_id: u32,
    pub blurred: u32,
    pub borrow_graph: BorrowGraph,
}
