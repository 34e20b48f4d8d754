//! Frames as they were entered.
use guard_syntax::Ref;

/// A frame: a scope with a current value. The file's frame has the site 0 and no parent; any other has the site of a
/// body, of the step of a filter, or of the call of a rule, and the number of the frame in which it was entered.
#[derive(Clone, Copy, PartialEq, Eq, Hash)]
pub struct Frame {
    pub parent: Option<u64>,
    pub site: u32,
    pub current: Ref,
}
