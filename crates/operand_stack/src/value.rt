// push and pop by value: the stack is taken and, with one operand more or less, handed back.
ghost use Rattle.std.specs.Prelude.{◌≡◌, [], ◌∷◌};
ghost use Rattle.abstract_state.specs.Models.{operand_of};
ghost use Rattle.operand_stack.specs.Models.{stack_of, answered, took, pop_one, push_each};

use crate::OperandStack;
use abstract_state::state::{AbstractValue, Operands};
use vm_status::Refusal;

pub fn push(stack: Operands, value: AbstractValue) -> Result<Operands, Refusal>
    ensures { answered stack_of result ≡ push_each (stack_of stack) (operand_of value ∷ []) }
{
    let mut s = OperandStack { operands: stack };
    s.push(value)?;
    Ok(s.operands)
}

pub fn pop(stack: Operands) -> Result<(AbstractValue, Operands), Refusal>
    ensures { answered (λ (p : AbstractValue × Operands). took (operand_of p.0) p.1) result ≡ pop_one (stack_of stack) }
{
    let mut s = OperandStack { operands: stack };
    let value = s.pop()?;
    Ok((value, s.operands))
}
