//! What the use of a name means.

/// What the use of a variable means: what gives the name in the nearest scope around the use that has it. `up` counts
/// the scopes outwards from the one in which the use stands, which is 0.
#[derive(Clone, Copy, PartialEq, Eq)]
pub enum Bind {
    /// A let: the site of its expression.
    Value { up: u32, site: u32 },
    /// A capture: the site of its step.
    Capture { up: u32, step: u32 },
    /// A parameter of the called rule whose body the scope is: its index, from 0.
    Param { up: u32, index: u32 },
}

/// What the use of a name means.
#[derive(Clone, Copy)]
pub enum Link {
    /// The use of a variable.
    Variable(Bind),
    /// A reference to a rule, or a call of one: the rule's site.
    Rule(u32),
}
