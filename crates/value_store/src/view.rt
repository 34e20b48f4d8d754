//! Values to look at.
ghost use Rattle.std.specs.Prelude.{◌≡◌, true};
ghost use Rattle.doc_values.specs.Tree.{has_text};
ghost use Rattle.value_store.specs.code.Views.{see_view};

use doc_values::{Cursor, Kind};

/// A value of a tree, or a key of a map, which is a text.
#[derive(Clone, Copy)]
pub enum View<'t, 's> {
    At(Cursor<'t, 's>),
    Key(&'t str),
}

impl<'t, 's> View<'t, 's> {
    /// What the value is.
    pub fn kind(&self) -> Kind
        ensures { result ≡ (see_view self.now).kind }
    {
        match self {
            View::At(value) => value.kind(),
            View::Key(_) => Kind::Text,
        }
    }

    /// The bytes of a text or a pattern.
    pub fn text(&self) -> &'t str
        requires { has_text (see_view self.now).kind ≡ true }
        ensures { result.now ≡ (see_view self.now).text }
    {
        match self {
            View::At(value) => value.text(),
            View::Key(key) => key,
        }
    }
}
