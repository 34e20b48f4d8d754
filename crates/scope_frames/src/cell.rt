//! Cells by the frame and the name that they are for.

/// What a name means in a frame: there is a cell for each frame and each name of its scope.
#[derive(Clone, Copy, PartialEq, Eq, Hash)]
pub struct Cell {
    pub frame: u64,
    /// The site of what gives the name: the expression of a let, the step of a capture, or the argument of a parameter in
    /// the call whose frame it is.
    pub slot: u32,
}
