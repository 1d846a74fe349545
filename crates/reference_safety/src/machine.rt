// The state and the operand stack that the steps of a block go through, beside their arrays, and the pushes of a step. Where each stands in the
// Rust (mod.rs):
//
//   here          the Rust
//   push_answer   the push of an entry point's value, as at 147
//   push_new      the pushes of `value_for`, 286 to 315, and of NonReference, 113 in `pack` and 120 in `unpack`
ghost use Rattle.std.specs.Prelude.{◌≡◌, ℕ, ◌&&◌, List, ◌==◌};
ghost use Rattle.meaning.specs.Answers.{done};
ghost use Rattle.meaning.specs.Blocks.{machine_at};
ghost use Rattle.meaning.specs.EntryPoints.{value_for};
ghost use Rattle.meaning.specs.Steps as T;
ghost use Rattle.file_format.specs.Models.{token_of};
ghost use Rattle.abstract_state.specs.Models.{words};
ghost use Rattle.operand_stack.specs.Models.{held};
ghost use Rattle.reference_safety.specs.Models.{board, heeding, Steps, StepsTo, Runs, Pushed};

use abstract_state::basic_calls::refuse;
use abstract_state::state::AbstractState;
use abstract_state_steps::value_for;
use file_format::{CodeOffset, SignatureToken};
use meaning::MAX_NAMES;
use operand_stack::OperandStack;
use vm_status::Refusal;

// It has stopped where the state has.
#[derive(Clone, Copy)]
pub struct Machine {
    pub state: AbstractState,
    pub stack: OperandStack,
}

impl Machine {
    pub(crate) fn goes_on(&self) -> bool
        ensures { result ≡ (self.now.state.violation == 0 && self.now.state.refusal == 0) }
    {
        (self.state.violation == 0) & (self.state.refusal == 0)
    }

    // The instruction at this offset is next.
    pub(crate) fn at_offset(&mut self, offset: CodeOffset)
        ensures { (ls ns : List ℕ) (es : List (List ℕ)) → Steps (λ q. done (machine_at offset.0 q)) (board ls ns es self.old) (board ls ns es self.new) }
    {
        self.state.offset = offset;
    }

    // A step's refusal stops the state, unless it has stopped.
    pub(crate) fn heed(&mut self, answer: Result<(), Refusal>)
        ensures { (ls ns : List ℕ) (es : List (List ℕ)) → Steps (heeding answer) (board ls ns es self.old) (board ls ns es self.new) }
    {
        if let Err(r) = answer {
            self.state = refuse(self.state, r);
        }
    }

    // What the last step answered is pushed.
    pub(crate) fn push_answer(&mut self) -> Result<(), Refusal>
        ensures { (ls ns : List ℕ) (es : List (List ℕ)) → Pushed (words ls ns es self.old.state) (held self.old.stack) result (board ls ns es self.new) }
    {
        self.stack.push(self.state.value)
    }
}

fn push_one(
    names: &mut [u32; MAX_NAMES],
    m: &mut Machine,
    token: SignatureToken,
) -> Result<(), Refusal>
    ensures { (ls : List ℕ) (es : List (List ℕ)) → StepsTo (λ x. T.pushed x.stack (value_for (token_of token) x.state)) (board ls names.old es m.old) result (board ls names.new es m.new) }
{
    m.state = value_for(names, m.state, token);
    m.push_answer()
}

// n values or new references. At most seventeen turns, since the stack fills.
pub(crate) fn push_new(
    names: &mut [u32; MAX_NAMES],
    m: &mut Machine,
    n: u16,
    token: SignatureToken,
) -> Result<(), Refusal>
    ensures { (ls : List ℕ) (es : List (List ℕ)) → Runs (T.push_new n (token_of token) (held m.old.stack)) (words ls names.old es m.old.state) result (board ls names.new es m.new) }
{
    if let SignatureToken::Value = token {
        return m.stack.push_values(n);
    }
    for i in 0..n {
        push_one(names, m, token)?;
    }
    Ok(())
}
