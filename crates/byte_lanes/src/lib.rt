//! Scans of bytes, a block of lanes at a time.
//!
//! The readers of JSON, YAML and evidence skip the bytes that mean nothing to them, count lines and
//! test for ASCII with these calls. Each answers what its plain definition says, at every length and
//! content: the least place whose byte is in a set, a count, a test of all bytes, the places after
//! the newlines. The crate stands on `std` alone. It knows bytes, and nothing of any format.
#![tactic(auto)]

mod ascii;
mod control;
mod count;
mod lines;
mod set;
mod special;

pub use ascii::is_ascii;
pub use control::first_control_or;
pub use count::count_byte;
pub use lines::line_starts;
pub use set::ByteSet;
pub use special::first_special;
