// The words of locals and operands: each is made and read here. A word is 0 for an absent local, 65,536 for a value, 131,072 + its name
// for a reference; what stands above 262,144 is free. (meaning's Area says what each word stands for.) The Rust has no such words: each
// stands for an `AbstractValue` (abstract_state.rs, 23) or an entry of the locals (74).
ghost use Rattle.std.specs.Prelude.{◌≡◌};
ghost use Rattle.std.specs.Option.{ForSome};
ghost use Rattle.meaning.specs.Area.{local_in};
ghost use Rattle.meaning.specs.EntryPoints as R;
ghost use Rattle.abstract_state.specs.Models.{operand_of, operand_in, local_of};

use crate::state::AbstractValue;
use references::RefID;

// Names are below this, and kinds stand above it.
const KIND: u32 = 65536;

const VALUE: u32 = 65536;

const REFERENCE: u32 = 131072;

pub fn value_of(w: u32) -> AbstractValue
    ensures { operand_of result ≡ operand_in w }
{
    if w / KIND % 4 < 2 {
        return AbstractValue::NonReference;
    }
    AbstractValue::Reference(RefID((w % KIND) as u16))
}

pub fn value_word(v: AbstractValue) -> u32
    ensures { (operand_in result ≡ operand_of v) × (local_in result ≡ R.local_of (operand_of v)) }
{
    match v {
        AbstractValue::Reference(id) => REFERENCE + id.0 as u32,
        AbstractValue::NonReference => VALUE,
    }
}

pub fn local_of(w: u32) -> Option<AbstractValue>
    ensures { local_of result ≡ local_in w }
{
    if w / KIND % 4 == 0 {
        return None;
    }
    Some(value_of(w))
}

pub fn local_word(x: Option<AbstractValue>) -> u32
    ensures { (local_in result ≡ local_of x) × ForSome x (λ v. operand_in result ≡ operand_of v) }
{
    match x {
        Some(v) => value_word(v),
        None => 0,
    }
}
