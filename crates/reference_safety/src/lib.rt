// The steps of the instructions and the run of one block (mod.rs), on arrays that are lent.
#![tactic(auto)]

pub mod block;
pub mod machine;
mod steps;
