// The labelled borrow graph (graph.rs) on its arrays: names of 48 words, edges of 96 rows.
#![tactic(auto)]

mod arrays;
pub mod cover;
pub mod graph;
pub mod lookups;
pub mod refs;
pub mod remap;
