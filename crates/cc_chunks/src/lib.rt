//! The graph of a job's chunks: which depends on which, and which chunk several of them have in
//! common. `ChunkGraph::of` answers the graph of specs/Faults.antt or the first fault in the
//! specs; `depends` and `deepest_common` answer exactly the relations of specs/Graph.antt, and
//! take no memory.
#![tactic(auto)]

mod check;
mod gathered;
mod graph;
mod names;
mod reach;
mod set;
mod spec;

pub use graph::ChunkGraph;
pub use spec::{ChunkFault, ChunkSpec};
