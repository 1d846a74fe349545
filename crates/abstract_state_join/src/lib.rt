// The first state of a routine, the end of a block, and the join of two states (abstract_state.rs), in place.
#![tactic(auto)]

pub mod canonical;
pub mod first;
pub mod join;
mod locals;
