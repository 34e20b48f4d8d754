//! Rules and variables that reach themselves: `graph_of` makes the graph of the parts and names of a rule file, which is
//! that of the definition; `first_cycle` answers the first rule or variable that reaches itself, at its first use that
//! leads back, or that there is none. The crate stands on graphs of numbers (`reference_graph`) and on the names of scopes
//! (`name_scopes`); it does not know whether names are well given.
#![tactic(auto)]

pub mod cycles;
pub mod edges;

pub use cycles::first_cycle;
pub use edges::graph_of;
