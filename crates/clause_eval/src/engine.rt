//! The engine that evaluates rules.
use engine_lines::EngineLines;

/// What is known while rules are evaluated, and the evidence of it. Each of its lines follows, whatever comes. Once a call
/// has answered that there is no memory, each later one that takes memory answers so too.
#[derive(Drop)]
pub struct Engine<'t, 's> {
    /// The lines so far, and all by which one is found again or added.
    pub lines: EngineLines<'t, 's>,
}
