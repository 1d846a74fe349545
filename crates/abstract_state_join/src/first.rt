// The state of a routine's start: the parameters present, the root held, no edges. `new` is abstract_state.rs, 82 `new`.
ghost use Rattle.std.specs.Prelude.{◌≡◌, List, map, ℕ, ◌<◌, ◌≤◌, min, length, drop};
ghost use Rattle.meaning.specs.Limits.{max_locals, max_names, max_edges};
ghost use Rattle.meaning.specs.AbstractState.{non_ref, first_locals, first_names};
ghost use Rattle.meaning.specs.EntryPoints.{answer};
ghost use Rattle.meaning.specs.Listing.{token_as};
ghost use Rattle.references.specs.Models.{names_in};
ghost use Rattle.abstract_state.specs.Models.{local_of, locals_in, words, Fits, answer_of};
ghost use Rattle.abstract_state_join.specs.Models.{first_running, first_at};

use crate::locals;
use abstract_state::state::{AbstractState, AbstractValue, LOCALS};
use abstract_state::words::local_word;
use borrow_graph::graph::BorrowGraph;
use file_format::{CodeOffset, SignatureToken};
use meaning::{MAX_NAMES, lesser};
use references::RefID;
use references::words::name_word;

// The local at an index: the parameter that stands there, if there is one.
fn first_local(params: &[u8], i: usize) -> Option<AbstractValue>
    requires { i < max_locals }
    ensures { local_of result ≡ first_at i (drop i (map token_as params.now)) }
{
    match SignatureToken::from(*params.get(i)?) {
        SignatureToken::Value => Some(AbstractValue::NonReference),
        _ => Some(AbstractValue::Reference(RefID(i as u16))),
    }
}

fn first_locals(locals: &mut [u32; LOCALS], n: usize, params: &[u8])
    requires { n ≤ max_locals }
    ensures { length locals.old ≡ max_locals → (locals_in locals.new n ≡ first_locals 0 n (map token_as params.now)) × (length locals.new ≡ max_locals) }
{
    // (By index: each word is written in place, and its index tells both its parameter and its name.)
    for i in 0..n {
        locals[i] = local_word(first_local(params, i));
    }
}

// The names of the references among the parameters, and the root's, ascending.
fn first_names(names: &mut [u32; MAX_NAMES], n: usize, params: &[u8]) -> usize
    requires { n ≤ max_locals }
    ensures { (result ≤ max_names) × (length names.old ≡ max_names → (names_in names.new result ≡ first_names 0 n (map token_as params.now)) × (length names.new ≡ max_names)) }
{
    // (The names go to the front of the array and are counted: no heap is allowed.)
    let mut len: usize = 0;
    for (i, param) in params[..lesser(n, params.len())].iter().enumerate() {
        let token = SignatureToken::from(*param);
        if token == SignatureToken::Value {
            continue;
        }
        names[len] = name_word(RefID(i as u16), token == SignatureToken::MutableReference);
        len += 1;
    }
    names[len] = name_word(RefID(n as u16), true);
    len + 1
}

// A parameter is its token: 0 a value, 2 a mutable reference, else a reference. More than 16 locals count as 16, and parameters behind the last local
// are left out. The rows are not touched: there are no edges.
pub fn new(
    locals: &mut [u32; LOCALS],
    names: &mut [u32; MAX_NAMES],
    num_locals: u8,
    params: &[u8],
) -> AbstractState
    ensures { (es : List (List ℕ)) → length locals.old ≡ max_locals → length names.old ≡ max_names → length es ≡ max_edges →
        Fits (words locals.new names.new es result)
        × (answer_of (words locals.new names.new es result) ≡ answer (first_running (min num_locals max_locals) (map token_as params.now)) non_ref) }
{
    let n = locals::count(num_locals);
    first_locals(locals, n, params);
    let refs = first_names(names, n, params);
    AbstractState {
        violation: 0,
        borrowed_at: CodeOffset(0),
        refusal: 0,
        offset: CodeOffset(0),
        value: AbstractValue::NonReference,
        num_locals: n as u8,
        next_id: (n + 1) as u32,
        blurred: 0,
        borrow_graph: BorrowGraph {
            refs,
            edges: 0,
            formed: true,
        },
    }
}
