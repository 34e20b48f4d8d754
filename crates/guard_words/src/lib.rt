//! The words of `guard`'s command line.
//!
//! `read_words` answers the request that the words make, and `Usage` exactly where they make none.
//! The words are read twice: by a short walk of this crate, which decides whether they make a
//! request, and then by `clap`, which gives the values. It is proved that `clap` takes each list
//! of words that the walk takes, and gives the values that the definition gives.
//! The crate knows nothing of what stands in the files, and prints nothing.
#![tactic(auto)]

mod command_line;
mod reading;
mod request;
mod table;
mod values;

pub use request::{Request, WordsRefusal, read_words};
