//! Graphs whose nodes are numbers: what a node reaches, the graph turned round, an order in which each node stands behind
//! all that it names, the first node of a range that reaches itself, and the first part in which a name is used. Each call
//! answers exactly that, and is refused nothing but memory. The crate stands on the definitions of graphs in `rule_names`,
//! and knows nothing of rule files or of what a node stands for.
#![tactic(auto)]

pub mod builder;
pub mod cycle;
pub mod graph;
mod layout;
pub mod ordering;
pub mod parts;
pub mod reach;
pub mod reversal;
pub mod subgraph;

pub use builder::GraphBuilder;
pub use cycle::first_on_cycle;
pub use graph::Graph;
pub use ordering::{WalkOutcome, walk_all};
pub use parts::first_part_use;
