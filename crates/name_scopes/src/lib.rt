//! The names of scopes: which names the file, a body and a filter give, what gives each, and what a name means where scopes
//! stand in one another; the sites of rules by their names; and which of two faults of names is answered. Each call answers
//! what its definition in `rule_names` says. The crate stands on those definitions and on the types of rule files; it knows
//! nothing of what is done with a name, and finds no fault itself.
#![tactic(auto)]

pub mod binders;
pub mod fault;
pub mod rule_sites;
pub mod scope_chain;
pub mod scopes;
