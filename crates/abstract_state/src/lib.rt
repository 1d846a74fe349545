// The abstract state of a block (abstract_state.rs) on its arrays: locals of 16 words, names of 48, edges of 96 rows.
#![tactic(auto)]

pub mod basic_calls;
pub mod predicates;
pub mod state;
pub mod words;
