//! Rules that a template meets: `generate` writes, for each type of its resources, a rule that tests what all resources of
//! the type have in common. The text is exactly that of the definition, and `TooLong` comes exactly where it would have
//! more bytes than rules may have. The crate stands on located values, on the table of pairs and on the spelling of
//! values, and knows nothing of how rules are read or judged.
#![tactic(auto)]

mod element;
mod generated;
mod generator;
mod group;
mod kept;
mod refusal;
mod scalar;
mod write;

pub use generated::generated_tokens;
pub use generator::generate;
pub use refusal::GenerateRefusal;
