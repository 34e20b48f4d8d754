//! What steps are read over.
ghost use Rattle.value_store.specs.code.Books.{IsBookOf};
ghost use Rattle.value_store.specs.code.Stores.{see_store};

use std::alloc::Global;
use value_compare::{PatternBook, Store};

/// What a step is read over, which reading it does not change: the trees that references point into, and the patterns of
/// the store's rule file.
#[derive(Clone, Copy)]
pub struct StepContext<'c, 't, 's> {
    pub alloc: Global,
    pub store: &'c Store<'t, 's>,
    pub book: &'c PatternBook,
    pub ghost book_is: { IsBookOf (see_store store.now).file book.now },
}
