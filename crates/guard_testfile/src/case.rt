//! The cases of a tests file.
use guard_syntax::Verdict;

/// The verdict that is expected of the rule of a site; the parts outside rules, which are `default`, have the site 0.
#[derive(Clone, Copy)]
pub struct Expectation {
    pub site: u32,
    pub verdict: Verdict,
}

/// An input, and what is expected of rules over it, in document order.
#[derive(Drop)]
pub struct Case {
    /// The number of the input's node in the tree of the tests file.
    pub input: u32,
    pub wanted: Vec<Expectation>,
}
