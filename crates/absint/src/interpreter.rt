// The run of a routine's blocks. Where each stands in the Rust (absint.rs):
//
//   here               the Rust
//   analyze_function   75 `analyze_function`
//   turn, visit        91 to 157, the body of its loop
//
// 161 `execute_block` is `run_block` of the crate reference_safety.
ghost use Rattle.std.specs.Prelude.{◌≡◌, ◌≤◌, length};
ghost use Rattle.meaning.specs.Limits.{area_words};
ghost use Rattle.meaning.specs.Area.{kept_of};
ghost use Rattle.abstract_state.specs.Models.{words};
ghost use Rattle.absint.specs.Models.{Readable, Ready, From, Turned, Analyzed};

use crate::kept::start_from;
use crate::propagate::propagate;
use crate::run_state::{RunState, plus};
use absint_area::{forget, store};
use abstract_state::state::{AbstractState, LOCALS};
use abstract_state_join::first::new;
use listing::Routine;
use meaning::{EDGE_WORDS, MAX_EDGES, MAX_INSTRUCTIONS, MAX_NAMES, ROOM, lesser};
use reference_safety::block::run_block;

// The state with this number of locals.
fn with_locals(s: AbstractState, locals: u8) -> AbstractState
    ensures { (result.num_locals ≡ locals) × (result.borrow_graph ≡ s.borrow_graph) }
{
    let mut t = s;
    t.num_locals = locals;
    t
}

// The next block, run from its kept state, which stands in the arrays.
fn visit(
    listing: &[u8],
    routine: Routine,
    code: &[u16; MAX_INSTRUCTIONS],
    area: &mut [u32],
    locals: &mut [u32; LOCALS],
    names: &mut [u32; MAX_NAMES],
    edges: &mut [[u32; EDGE_WORDS]; MAX_EDGES],
    start: AbstractState,
    t: RunState,
) -> RunState
    requires { Ready listing.now code.now routine area.old t × From (kept_of routine.locals area.old t.next) routine.locals (words locals.old names.old edges.old start) }
    ensures { Turned listing.now code.now routine area.old area.new t result }
{
    let i = t.next;
    let b = routine.blocks[i];
    let r = run_block(listing, routine, code, b, locals, names, edges, start);
    let s = r.state;
    let place = r.place;
    let mut u = t.onward();
    u.visits = t.visits + 1;
    if s.violation != 0 {
        u.blurred = plus(t.blurred, s.blurred);
        let borrowed_at = s.borrowed_at;
        return u.fail(i, s.violation, place, borrowed_at);
    }
    if s.refusal != 0 {
        return u.stop(s.refusal, place);
    }
    u.blurred = plus(t.blurred, s.blurred);
    let v = u.clear(i);
    if b.count == 0 {
        return v;
    }
    let e = with_locals(s, routine.locals);
    let blocks = &routine.blocks[..routine.block_count];
    propagate(area, blocks, b, locals, names, edges, e, v)
}

// The next block: passed over where it has no kept state, else run from a copy of it.
fn turn(
    listing: &[u8],
    routine: Routine,
    code: &[u16; MAX_INSTRUCTIONS],
    area: &mut [u32],
    t: RunState,
) -> RunState
    requires { Ready listing.now code.now routine area.old t }
    ensures { Turned listing.now code.now routine area.old area.new t result }
{
    let mut ls = [0u32; LOCALS];
    let mut ns = [0u32; MAX_NAMES];
    let mut es = [[0u32; EDGE_WORDS]; MAX_EDGES];
    match start_from(area, t.next, routine.locals, &mut ls, &mut ns, &mut es) {
        Some(start) => visit(
            listing, routine, code, area, &mut ls, &mut ns, &mut es, start, t,
        ),
        None => t.onward(),
    }
}

// The loop has no budget: `turns` only counts, and its bound is that of the visits (document 01, demand 3). A `while`, because it counts no index:
// the turn says which block is next.
pub(crate) fn analyze_function(
    listing: &[u8],
    routine: Routine,
    code: &[u16; MAX_INSTRUCTIONS],
    area: &mut [u32],
) -> RunState
    requires { Readable listing.now code.now routine × (area_words ≤ length area.old) }
    ensures { Analyzed listing.now code.now routine area.old area.new result }
{
    let mut locals = [0u32; LOCALS];
    let mut names = [0u32; MAX_NAMES];
    let edges = [[0u32; EDGE_WORDS]; MAX_EDGES];
    let s = new(
        &mut locals,
        &mut names,
        routine.locals,
        &routine.params[..lesser(routine.param_count, ROOM)],
    );
    forget(area);
    store(area, 0, &locals, &names, &edges, s);
    let mut t = RunState::start();
    while t.stopped.is_none() & (t.next < routine.block_count) {
        t = turn(listing, routine, code, area, t);
    }
    t
}
