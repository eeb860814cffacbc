//! Which vertices of a graph are on a cycle, by Kosaraju's algorithm: the strongly connected
//! components of a graph given by adjacency lists, in linear time.
//!
//! A graph has for each vertex, which is a number, the vertices that its edges lead to. Each of
//! these has to be a vertex of the graph: [`targets_are_vertices`] says whether they are.
#![tactic(auto)]

mod cycles;
mod depth_first;
mod kosaraju;
mod reversal;
mod vertices;

pub use cycles::on_cycles;
pub use kosaraju::components;
pub use vertices::targets_are_vertices;
