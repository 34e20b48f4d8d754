//! Why bytes are no table of cases.
use std::alloc::AllocError;

/// What does not fit at a line.
#[derive(Clone, Copy)]
pub enum Misfit {
    /// The table has no case at all.
    NoCase,
    /// A heading that is none.
    Heading,
    /// A part that may not come here, or one that is wanting in front of this line.
    Order,
    /// A number that is wanting, too large or no decimal one.
    Number,
    /// The name of a case or a file that is wanting, or that an earlier case has.
    Name,
    /// What out took in the case before is asked for in the first case.
    NoOut,
    /// A text behind a heading that takes none.
    Text,
}

impl Misfit {
    /// The word that is printed for it.
    pub fn name(self) -> &'static str {
        match self {
            Misfit::NoCase => "NoCase",
            Misfit::Heading => "Heading",
            Misfit::Order => "Order",
            Misfit::Number => "Number",
            Misfit::Name => "Name",
            Misfit::NoOut => "NoOut",
            Misfit::Text => "Text",
        }
    }
}

/// Why bytes are no table, or none that was read.
#[derive(Clone, Copy)]
pub enum TableRefusal {
    /// The first line that does not fit, from 1.
    Unfit { line: u64, misfit: Misfit },
    /// The allocator gave no memory.
    NoMemory,
}

impl From<AllocError> for TableRefusal {
    fn from(_: AllocError) -> TableRefusal {
        TableRefusal::NoMemory
    }
}
