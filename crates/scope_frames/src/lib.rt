//! Frames and cells: the scopes that an evaluation has entered, each with its current value, and in each frame a cell for
//! each name of its scope, which is empty until what the name means is known. Equal arguments give the same frame, the use
//! of a name leads to one cell, and a cell that is filled keeps what it has. Nothing is evaluated here.
#![tactic(auto)]

pub mod cell;
pub mod cells;
pub mod enter;
pub mod frame;
pub mod frames;
pub mod laws;
pub mod outwards;
pub mod remembered;

pub use cell::Cell;
pub use frame::Frame;
pub use frames::Frames;
pub use laws::cells_tell_names;
pub use remembered::Remembered;
