// The operand stack lent for push and take, as mod.rs uses it. Each function is thin over the one by value of `operand_stack`. Refused, it
// leaves the stack as it was.
#![tactic(auto)]

ghost use Rattle.std.specs.Prelude.{◌≡◌, [], ◌∷◌, OnErr};
ghost use Rattle.abstract_state.specs.Models.{operand_of};
ghost use Rattle.operand_stack.specs.Models.{stack_of, pop_one, push_each};
ghost use Rattle.operand_stack_lent.specs.Models.{pushed_of, took_of};

use abstract_state::state::{AbstractValue, Operands};
use operand_stack::value::{pop, push};
use vm_status::Refusal;

pub fn push_on(stack: &mut Operands, value: AbstractValue) -> Result<(), Refusal>
    ensures pushes { pushed_of result stack.new ≡ push_each (stack_of stack.old) (operand_of value ∷ []) }
    ensures kept { OnErr result (stack.new ≡ stack.old) }
{
    *stack = push(*stack, value)?;
    Ok(())
}

// The top, where there is one.
pub fn take_from(stack: &mut Operands) -> Result<AbstractValue, Refusal>
    ensures takes { took_of result stack.new ≡ pop_one (stack_of stack.old) }
    ensures kept { OnErr result (stack.new ≡ stack.old) }
{
    let (value, left) = pop(*stack)?;
    *stack = left;
    Ok(value)
}
