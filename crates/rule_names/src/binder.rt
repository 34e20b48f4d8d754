//! What gives a name to a scope.

/// What gives a name to a scope.
#[derive(Clone, Copy)]
pub enum Binder {
    /// The let of a site.
    Let(u32),
    /// The capture of the step of a site.
    Capture(u32),
    /// The parameter of an index, from 0, of the rule whose body the scope is.
    Param(usize),
}
