//! What the parts of the reader of YAML documents share: what stands ahead at a place, the scalars, keys and tags of nodes, the
//! forms of the open collections, and the places and signs by which texts are refused. `yaml_grammar` has the definitions.
#![tactic(auto)]

pub mod ahead;
pub mod form;
pub mod node;
pub mod place;
pub mod sign;
