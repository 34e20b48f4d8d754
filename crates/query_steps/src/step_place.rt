//! Where a step stands.
ghost use Rattle.std.specs.Prelude.{◌<◌, length};

use guard_syntax::Step;

/// A step by its index among the steps of its query.
#[derive(Clone, Copy)]
pub struct StepPlace<'q> {
    pub steps: &'q [Step],
    pub index: usize,
    pub ghost within: { index < length steps.now },
}
