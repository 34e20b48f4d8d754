//! The rules of evidence, as definitions: which line of evidence follows from the lines before it, when evidence is
//! accepted, when it is lean, and what its lines say of the meaning of rules. `specs/` is to be read by whoever wants to
//! know what accepted evidence shows; the crate has no code.
#![tactic(auto)]
