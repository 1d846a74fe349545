// The operand stack of a block (`stack`, mod.rs:29): operands as words, the last one the top; a depth beyond 16 reads as 16. Refused, it is as it
// was.
// Where each stands in the Rust (mod.rs):
//
//   here          the Rust
//   OperandStack  `Vec<AbstractValue>`
//   pop           `stack.pop().unwrap()`, as at 143
//   pop_ref       the same with `ref_id().unwrap()`, as at 156
//   pop_values    the same with `assert!(is_value())`, as at 109
//   pop_many      the arguments of `call`, 74, and the values of Ret, 259
//   push          `stack.push`, as at 147
//   push_values   the loop of `unpack`, 119
//   push_all      the loop of `call`, 95
#![tactic(auto)]

pub mod value;

ghost use Rattle.std.specs.Prelude.{◌≡◌, min, length, [], ◌∷◌, replicate, OnErr};
ghost use Rattle.meaning.specs.Limits.{max_operands};
ghost use Rattle.meaning.specs.AbstractState.{non_ref};
ghost use Rattle.abstract_state.specs.Models.{operand_of, operands_of};
ghost use Rattle.operand_stack.specs.Models.{held, answered, took, pop_one, pop_one_ref, pop_some, pop_rest, pop_under, push_each};

use abstract_state::state::{AbstractValue, Operands};
use abstract_state::words::{value_of, value_word};
use meaning::{MAX_OPERANDS, lesser};
use references::RefID;
use vm_status::Refusal;

#[derive(Clone, Copy)]
pub struct OperandStack {
    pub operands: Operands,
}

// (An array within a lent struct has its length where it is lent alone.)
fn counted(list: &[u32; MAX_OPERANDS], len: usize) -> usize
    ensures least { result ≡ min len max_operands }
    ensures room { length list.now ≡ max_operands }
{
    lesser(len, MAX_OPERANDS)
}

impl OperandStack {
    pub fn new() -> OperandStack
        ensures { held result ≡ [] }
    {
        OperandStack {
            operands: Operands {
                list: [0; MAX_OPERANDS],
                len: 0,
            },
        }
    }

    pub fn depth(&self) -> usize
        ensures least { result ≡ min self.now.operands.len max_operands }
        ensures room { length self.now.operands.list ≡ max_operands }
    {
        counted(&self.operands.list, self.operands.len)
    }

    pub fn pop(&mut self) -> Result<AbstractValue, Refusal>
        ensures takes { answered (λ v. took (operand_of v) self.new.operands) result ≡ pop_one (held self.old) }
        ensures words { self.new.operands.list ≡ self.old.operands.list }
        ensures kept { OnErr result (self.new ≡ self.old) }
    {
        match self.depth() {
            0 => Err(Refusal::EmptyStack),
            n => {
                self.operands.len = n - 1;
                Ok(value_of(self.operands.list[n - 1]))
            }
        }
    }

    pub fn pop_ref(&mut self) -> Result<RefID, Refusal>
        ensures takes { answered (λ (id : RefID). took id.0 self.new.operands) result ≡ pop_one_ref (held self.old) }
        ensures words { self.new.operands.list ≡ self.old.operands.list }
        ensures kept { OnErr result (self.new ≡ self.old) }
    {
        let len = self.operands.len;
        match self.pop()? {
            AbstractValue::Reference(id) => Ok(id),
            AbstractValue::NonReference => {
                self.operands.len = len;
                Err(Refusal::WrongOperand)
            }
        }
    }

    // n values. (One by one from the top: what comes first, a reference or the stack's end, tells which refusal it is.)
    pub fn pop_values(&mut self, n: u16) -> Result<(), Refusal>
        ensures takes { answered (λ _. held self.new) result ≡ pop_rest n (held self.old) }
        ensures words { self.new.operands.list ≡ self.old.operands.list }
        ensures kept { OnErr result (self.new ≡ self.old) }
    {
        let mut k = self.depth();
        for i in 0..n {
            if k == 0 {
                return Err(Refusal::EmptyStack);
            }
            if let AbstractValue::Reference(_) = value_of(self.operands.list[k - 1]) {
                return Err(Refusal::WrongOperand);
            }
            k -= 1;
        }
        self.operands.len = k;
        Ok(())
    }

    // n values, and what lies under them.
    pub fn pop_under(&mut self, n: u16) -> Result<AbstractValue, Refusal>
        ensures takes { answered (λ v. took (operand_of v) self.new.operands) result ≡ pop_under n (held self.old) }
        ensures words { self.new.operands.list ≡ self.old.operands.list }
        ensures kept { OnErr result (self.new ≡ self.old) }
    {
        let len = self.operands.len;
        self.pop_values(n)?;
        match self.pop() {
            Ok(value) => Ok(value),
            Err(r) => {
                self.operands.len = len;
                Err(r)
            }
        }
    }

    // n operands of any kind, in the order of their pushes.
    pub fn pop_many(&mut self, n: u8) -> Result<Operands, Refusal>
        ensures takes { answered (λ vs. took (operands_of vs) self.new.operands) result ≡ pop_some n (held self.old) }
        ensures words { self.new.operands.list ≡ self.old.operands.list }
        ensures kept { OnErr result (self.new ≡ self.old) }
    {
        let top = self.depth();
        let len = n as usize;
        if top < len {
            return Err(Refusal::EmptyStack);
        }
        let under = top - len;
        let mut list = [0; MAX_OPERANDS];
        list[..len].copy_from_slice(&self.operands.list[under..top]);
        self.operands.len = under;
        Ok(Operands { list, len })
    }

    pub fn push(&mut self, value: AbstractValue) -> Result<(), Refusal>
        ensures pushes { answered (λ _. held self.new) result ≡ push_each (held self.old) (operand_of value ∷ []) }
        ensures len { length self.new.operands.list ≡ length self.old.operands.list }
        ensures kept { OnErr result (self.new ≡ self.old) }
    {
        let n = self.depth();
        if n == MAX_OPERANDS {
            return Err(Refusal::FullStack);
        }
        self.operands.list[n] = value_word(value);
        self.operands.len = n + 1;
        Ok(())
    }

    // n values.
    pub fn push_values(&mut self, n: u16) -> Result<(), Refusal>
        ensures pushes { answered (λ _. held self.new) result ≡ push_each (held self.old) (replicate n non_ref) }
        ensures len { length self.new.operands.list ≡ length self.old.operands.list }
        ensures kept { OnErr result (self.new ≡ self.old) }
    {
        let k = self.depth();
        let end = k + n as usize;
        if MAX_OPERANDS < end {
            return Err(Refusal::FullStack);
        }
        self.operands.list[k..end].fill(value_word(AbstractValue::NonReference));
        self.operands.len = end;
        Ok(())
    }

    // The first one first.
    pub fn push_all(&mut self, values: &Operands) -> Result<(), Refusal>
        ensures pushes { answered (λ _. held self.new) result ≡ push_each (held self.old) (operands_of values.now) }
        ensures len { length self.new.operands.list ≡ length self.old.operands.list }
        ensures kept { OnErr result (self.new ≡ self.old) }
    {
        let k = self.depth();
        let words = values.words();
        let end = k + words.len();
        if MAX_OPERANDS < end {
            return Err(Refusal::FullStack);
        }
        self.operands.list[k..end].copy_from_slice(words);
        self.operands.len = end;
        Ok(())
    }
}
