// The calls that change a graph's edges (graph.rs): borrows, release and join, in place.
#![tactic(auto)]

pub mod blurs;
pub mod borrow;
mod edges;
pub mod join;
mod pairs;
pub mod release;
