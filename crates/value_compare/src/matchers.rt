//! What finds patterns in texts while rows are tested.
ghost use Rattle.std.specs.Prelude.{◌≡◌, ℕ, true, IfOk, Some, nat_eq};
ghost use Rattle.indexmap.specs.IndexMap.{get};
ghost use Rattle.value_store.specs.code.Books.{has_text};
ghost use Rattle.pattern_books.specs.code.Matching.{IsMatcherAt};
ghost use Rattle.rule_meaning.specs.PatternMatch.{finds};

use indexmap::IndexMap;
use pattern_books::PatternBook;
use regex::Matcher;
use std::alloc::{AllocError, Global};

/// The patterns of a book, with what finds those that were looked for, by their places in the book. The caches of what
/// finds a pattern grow as it is used; what it finds is what its pattern says, whatever was looked for before.
#[derive(Drop)]
pub struct Matchers<'b> {
    pub(crate) alloc: Global,
    pub book: &'b PatternBook,
    made: IndexMap<usize, Matcher<'b>>,
    ghost fit: { (i : ℕ) (m : _) → get nat_eq made i ≡ Some m → IsMatcherAt book.now i m },
}

impl<'b> Matchers<'b> {
    /// Over a book. It takes no memory before a pattern is looked for.
    pub fn new(alloc: Global, book: &'b PatternBook) -> Matchers<'b>
        ensures { result.book.now ≡ book.entry.now }
    {
        Matchers {
            alloc,
            book,
            made: IndexMap::new(alloc),
        }
    }

    /// Whether a pattern of the book is found somewhere in a text. What finds it is made the first time, and kept.
    pub(crate) fn finds(&mut self, pattern: &str, text: &str) -> Result<bool, AllocError>
        requires { has_text self.old.book.now pattern.now ≡ true }
        ensures found { IfOk result (λ found. found ≡ finds pattern.now text.now) }
        ensures kept { self.new.book.now ≡ self.old.book.now }
    {
        let book = self.book;
        let (index, found) = book.find_full(pattern);
        match self.made.get_mut(&index) {
            Some(matcher) => Ok(matcher.is_match(text)),
            None => {
                let mut matcher = found.matcher(self.alloc)?;
                let answer = matcher.is_match(text);
                self.made.insert(index, matcher)?;
                Ok(answer)
            }
        }
    }
}
