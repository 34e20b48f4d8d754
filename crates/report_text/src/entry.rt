//! Entries: what a rule that fails fails by.
use guard_syntax::Ref;

/// The word under which something is shown.
#[derive(Clone, Copy)]
pub enum Word {
    /// A value that did not pass a test.
    Value,
    /// What was reached last where nothing more was found.
    Missing,
    /// What a test of whole sets found, or the current value where one found nothing.
    Rows,
    /// The current value where another rule is referred to.
    Rule,
    /// The current value where a rule is called under `not`.
    Call,
}

/// What is shown of a template, of the rules or of what calls made.
#[derive(Clone, Copy)]
pub enum Shown {
    /// A value of the template or of a literal, or a key there.
    Value(Ref),
    /// A value that the function call of a site made.
    Made { call: u32, value: Ref },
    /// The function call of a site, which did not apply.
    Unmade(u32),
}

/// One thing by which a part of a rule file fails, by the part's site.
#[derive(Clone, Copy)]
pub struct Entry {
    pub shown: Shown,
    pub word: Word,
    pub part: u32,
}
