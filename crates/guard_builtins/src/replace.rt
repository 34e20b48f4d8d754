//! Texts with the matches of a pattern replaced.
ghost use Rattle.std.specs.Prelude.{◌≡◌, [], true, IfOk, IfSome, IsOk, Some, map, option_map};
ghost use Rattle.std.specs.List.{list_all};
ghost use Rattle.value_store.specs.code.Books.{has_text};
ghost use Rattle.rule_meaning.specs.Functions.{AreRows, IsGiven, IsReplaced, single_text};
ghost use Rattle.value_store.specs.code.Stores.{see_store};
ghost use Rattle.value_store.specs.code.Views.{see_view};
ghost use Rattle.guard_builtins.specs.code.Seen.{ByTexts, both, changes, is_plain, see_made};

use crate::changing::{NoChange, ValueChange};
use crate::functions::rows_for;
use crate::made::Made;
use doc_values::Doc;
use guard_syntax::Row;
use pattern_books::{PatternBook, Replacer};
use std::alloc::{AllocError, Global};
use value_functions::{single_text, text_of, text_tree};
use value_store::{Store, View};

/// `regex_replace`: a text with each match of a pattern replaced by what a template says. Pattern and template have to be
/// single texts; the book has the pattern. Where there are no rows, nothing is made that replaces.
pub fn regex_replace(
    alloc: Global,
    site: u32,
    rows: &[Row],
    pattern: &[Row],
    template: &[Row],
    store: &Store<'_, '_>,
    book: &PatternBook,
) -> Result<Vec<Made>, AllocError>
    requires { IfSome (single_text (see_store store.now) pattern.now) (λ text. has_text book.now text ≡ true) }
    ensures rows { IfOk result (λ made. AreRows (IsReplaced (single_text (see_store store.now) pattern.now) (single_text (see_store store.now) template.now)) (see_store store.now) site rows.now (map see_made made.items)) }
    ensures plain { IfOk result (λ made. list_all is_plain made.items ≡ true) }
    ensures no_memory { rows.now ≡ [] → IsOk result }
{
    if rows.is_empty() {
        return Ok(Vec::new(alloc));
    }
    match texts(pattern, template, store) {
        None => rows_for(alloc, &mut NoChange, site, rows, store),
        Some((pattern, template)) => {
            let replacing = Replacing {
                pattern,
                template,
                book,
            };
            replaced_rows(alloc, replacing, site, rows, store)
        }
    }
}

/// What replaces: a pattern of a book, and a template.
#[derive(Clone, Copy)]
struct Replacing<'r> {
    pattern: &'r str,
    template: &'r str,
    book: &'r PatternBook,
}

/// A row for each row, with each match in its text replaced.
fn replaced_rows(
    alloc: Global,
    replacing: Replacing<'_>,
    site: u32,
    rows: &[Row],
    store: &Store<'_, '_>,
) -> Result<Vec<Made>, AllocError>
    requires { has_text replacing.book.now replacing.pattern.now ≡ true }
    ensures rows { IfOk result (λ made. AreRows (IsReplaced (Some replacing.entry.pattern.now) (Some replacing.entry.template.now)) (see_store store.now) site rows.now (map see_made made.items)) }
    ensures plain { IfOk result (λ made. list_all is_plain made.items ≡ true) }
{
    let book = replacing.book;
    let mut replacer = book.replacer(alloc, replacing.pattern, replacing.template)?;
    rows_for(alloc, &mut replacer, site, rows, store)
}

/// The texts of pattern and template, where both are single texts.
fn texts<'v>(
    pattern: &[Row],
    template: &[Row],
    store: &'v Store<'_, '_>,
) -> Option<(&'v str, &'v str)>
    ensures { option_map (λ texts. (texts.0.now, texts.1.now)) result ≡ both (single_text (see_store store.entry.now) pattern.now) (single_text (see_store store.entry.now) template.now) }
{
    match (single_text(pattern, store), single_text(template, store)) {
        (Some(pattern), Some(template)) => Some((pattern, template)),
        _ => None,
    }
}

impl<'b> ValueChange for Replacer<'b> {
    ghost changing = { λ replacer. ByTexts replacer.pattern.now replacer.template.now };

    /// The tree of a text with the matches replaced.
    fn given(
        &mut self,
        alloc: Global,
        value: View<'_, '_>,
    ) -> Result<Option<Doc<'static>>, AllocError>
        ensures given { IfOk result (IsGiven (changes (ByTexts self.old.pattern.now self.old.template.now) (see_view value.entry))) }
        ensures pattern { self.new.pattern.now ≡ self.old.pattern.now }
        ensures template { self.new.template.now ≡ self.old.template.now }
    {
        match text_of(value) {
            None => Ok(None),
            Some(text) => Ok(Some(text_tree(alloc, self.replaced(alloc, text)?)?)),
        }
    }
}
