//! Where reading stands, and what a node stands in there.
ghost use Rattle.std.specs.Prelude.{◌≡◌, true, false};

use yaml_grammar::{Ahead, Form};

/// Where reading stands.
#[derive(Clone, Copy)]
pub struct Site {
    /// The byte offset.
    pub at: usize,
    /// What a node stands in there.
    pub form: Form,
    /// What is ahead.
    pub next: Ahead,
}

/// Whether a further entry of a block mapping begins at the column of a token.
pub fn is_entry_column(form: Form, next: Ahead) -> bool
    ensures yes { result ≡ true → form ≡ Form.Entries next.column }
    ensures no { result ≡ false → form ≡ Form.Entries next.column → ⊥ }
{
    match form {
        Form::Entries { column } => column == next.column,
        _ => false,
    }
}
