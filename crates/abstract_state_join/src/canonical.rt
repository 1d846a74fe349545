// The end of a block with successors: each local's reference takes the local's index for its name. Where each stands in the Rust
// (abstract_state.rs):
//
//   here                        the Rust
//   construct_canonical_state   584 `construct_canonical_state`
//   id_map                      its `id_map`, 585 to 602
//   own_names, own_name         its `locals`, 587 to 602
ghost use Rattle.std.specs.Prelude.{◌≡◌, ◌∷◌, ◌<◌, length};
ghost use Rattle.meaning.specs.Limits.{max_locals};
ghost use Rattle.meaning.specs.AbstractState.{own_names};
ghost use Rattle.borrow_graph.specs.Models.{map_of};
ghost use Rattle.abstract_state.specs.Models.{local_of, locals_in, words, Does};
ghost use Rattle.abstract_state_join.specs.Models.{canonical_end, own_name, renames};

use crate::locals::count;
use abstract_state::state::{AbstractState, AbstractValue, LOCALS};
use abstract_state::words::{local_of, local_word};
use borrow_graph::remap::{IdMap, IdPair, renamed};
use meaning::{MAX_EDGES, MAX_NAMES};
use references::RefID;
use references::rows::Row;

// The root keeps its name; a local's reference gets the local's index.
fn id_map(locals: &[u32; LOCALS], n: u8, root: RefID) -> IdMap
    ensures { length locals.now ≡ max_locals → map_of result ≡ record { old = root.0; new = root.0 } ∷ renames 0 (locals_in locals.now n) }
{
    let kept = IdPair {
        old: root,
        new: root,
    };
    // (The pairs go to the front of a fixed array and are counted: no heap is allowed.)
    let mut list = [kept; MAX_NAMES];
    let mut len: usize = 1;
    for (i, local) in locals[..count(n)].iter().enumerate() {
        let Some(AbstractValue::Reference(held)) = local_of(*local) else {
            continue;
        };
        list[len] = IdPair {
            old: held,
            new: RefID(i as u16),
        };
        len += 1;
    }
    IdMap {
        list,
        len: len as u8,
    }
}

// The local with the index for the name of its reference, if it holds one.
fn own_name(x: Option<AbstractValue>, i: usize) -> Option<AbstractValue>
    requires { i < max_locals }
    ensures { local_of result ≡ own_name i (local_of x) }
{
    match x {
        Some(AbstractValue::Reference(_)) => Some(AbstractValue::Reference(RefID(i as u16))),
        _ => x,
    }
}

fn own_names(locals: &mut [u32; LOCALS], n: u8)
    ensures { length locals.old ≡ max_locals → (locals_in locals.new n ≡ own_names 0 (locals_in locals.old n)) × (length locals.new ≡ max_locals) }
{
    // (By index: each word is written in place, and its index is the new name.)
    for i in 0..count(n) {
        locals[i] = local_word(own_name(local_of(locals[i]), i));
    }
}

// All names are changed together, so that references exchanged in the block simply are exchanged. Fresh names start behind the root's again.
pub fn construct_canonical_state(
    locals: &mut [u32; LOCALS],
    names: &mut [u32; MAX_NAMES],
    edges: &mut [Row; MAX_EDGES],
    state: AbstractState,
) -> AbstractState
    ensures { Does canonical_end (words locals.old names.old edges.old state) (words locals.new names.new edges.new result) }
{
    if (state.violation == 0) & (state.refusal == 0) {
        let mut s = state;
        let n = state.num_locals;
        let map = id_map(locals, n, RefID(n as u16));
        own_names(locals, n);
        let g = state.borrow_graph;
        let h = renamed(names, edges, g, map);
        s.borrow_graph = h;
        s.next_id = n as u32 + 1;
        return s;
    }
    state
}
