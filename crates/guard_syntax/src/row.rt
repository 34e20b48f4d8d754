//! References into values, and what queries and rules give.

/// Where a value comes from: the template, the literal of a site, or the call that wrote a line of the evidence, at one
/// of its rows.
#[derive(Clone, Copy, Debug, PartialEq, Eq, Hash)]
pub enum Origin {
    Template,
    Literal(u32),
    Made { line: u64, row: u64 },
}

/// A node of a tree of values, counted in document order from the root 0, or the key of that node.
#[derive(Clone, Copy, Debug, PartialEq, Eq, Hash)]
pub struct Ref {
    pub origin: Origin,
    pub node: u32,
    pub key: bool,
}

/// What a query gives: a value, the value at which the step of a site found nothing, or the call of a site that does not
/// apply.
#[derive(Clone, Copy, PartialEq, Eq)]
pub enum Row {
    Found(Ref),
    Missing { value: Ref, step: u32 },
    Unmade { call: u32 },
}

/// What a rule or a part of it says of a template.
#[derive(Clone, Copy)]
pub enum Verdict {
    Pass,
    Fail,
    Skip,
}
