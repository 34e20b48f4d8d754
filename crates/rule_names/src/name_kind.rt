//! What may be the matter with a name.

/// What is the matter with a name.
#[derive(Clone, Copy)]
pub enum NameKind {
    /// A rule has the name of an earlier one.
    DuplicateRule,
    /// A let, a capture or a parameter has a name that its scope has already.
    DuplicateName,
    /// No rule has the name of a reference or a call.
    UnknownRule,
    /// No scope around a use has the variable.
    UnknownVariable,
    /// No function has the name of a call.
    UnknownFunction,
    /// A reference names a rule with parameters.
    NeedsArguments,
    /// A call names a rule without parameters.
    TakesNone,
    /// A call has another number of arguments than its rule or function takes.
    ArgCount,
    /// The second or third argument of `regex_replace` is no literal text.
    LiteralWanted,
    /// A rule reaches itself.
    RecursiveRule,
    /// A let or a capture reaches itself.
    RecursiveVariable,
    /// An item of the file is deeper than 200; this is about no name, so the name is empty.
    TooDeep,
}
