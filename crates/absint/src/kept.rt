// A kept state as a block starts from it.
ghost use Rattle.std.specs.Prelude.{◌≡◌, true, length};
ghost use Rattle.std.proofs.Math.Option.{some};
ghost use Rattle.meaning.specs.Limits.{max_locals, max_names, max_edges};
ghost use Rattle.meaning.specs.BorrowGraph.{well_formed};
ghost use Rattle.meaning.specs.AbstractState.{State};
ghost use Rattle.meaning.specs.Area.{kept_of};
ghost use Rattle.absint.specs.Models.{StartsFrom};

use absint_area::load;
use abstract_state::state::{AbstractState, AbstractValue, LOCALS};
use borrow_graph::graph::BorrowGraph;
use file_format::CodeOffset;
use meaning::{EDGE_WORDS, MAX_EDGES, MAX_NAMES};

// The words go into the arrays. `None`: there is no kept state yet, and what they hold is free. Kept graphs are well formed, so none is tested.
// Fresh names start at L + 1.
pub(crate) fn start_from(
    area: &[u32],
    b: usize,
    num_locals: u8,
    locals: &mut [u32; LOCALS],
    names: &mut [u32; MAX_NAMES],
    edges: &mut [[u32; EDGE_WORDS]; MAX_EDGES],
) -> Option<AbstractState>
    requires { (k : State) → kept_of num_locals area.now b ≡ some k → well_formed k.graph ≡ true }
    ensures { length locals.old ≡ max_locals → length names.old ≡ max_names → length edges.old ≡ max_edges → StartsFrom (kept_of num_locals area.now b) num_locals locals.new names.new edges.new result }
{
    let k = load(area, b, num_locals, locals, names, edges)?;
    Some(AbstractState {
        violation: 0,
        borrowed_at: CodeOffset(0),
        refusal: 0,
        offset: CodeOffset(0),
        value: AbstractValue::NonReference,
        num_locals,
        next_id: num_locals as u32 + 1,
        blurred: 0,
        borrow_graph: BorrowGraph {
            refs: k.refs,
            edges: k.edges,
            formed: true,
        },
    })
}
