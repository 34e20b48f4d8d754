//! What the engine that evaluates rules holds, as a value that no code is needed for: which states it may be in, what adding
//! a line, entering a frame and evaluating a part ask for and answer, and why evaluation ends. The definitions are in
//! `specs/code/`, and what holds of them in `proofs/`; the engine is `clause_eval`.
#![tactic(auto)]
