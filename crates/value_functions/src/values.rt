//! Values and what rows stand for.
ghost use Rattle.std.specs.Prelude.{◌≡◌, ℕ, None, Some, option_map, IfOk, map};
ghost use Rattle.rule_meaning.specs.Functions.{single, single_text, single_whole, text_in, text_of, texts_in};
ghost use Rattle.rule_meaning.specs.StoreModel.{meant};
ghost use Rattle.value_store.specs.code.Stores.{see_store};
ghost use Rattle.value_store.specs.code.Views.{see_view};

use doc_values::Kind;
use guard_syntax::Row;
use std::alloc::{AllocError, Global};
use value_store::{Store, View};

/// What a value is; a key of a map is a text.
fn kind_of(value: View<'_, '_>) -> Kind
    ensures { result ≡ (see_view value.entry).kind }
{
    match value {
        View::Key(_) => Kind::Text,
        View::At(node) => node.kind(),
    }
}

/// The text that a value is.
pub fn text_of<'v>(value: View<'v, '_>) -> Option<&'v str>
    ensures { option_map (λ text. text.now) result ≡ text_of (see_view value.entry) }
{
    match value {
        View::Key(text) => Some(text),
        View::At(node) => match node.kind() {
            Kind::Text => Some(node.text()),
            _ => None,
        },
    }
}

/// The value that a row stands for, where it is found.
fn meant<'v, 's>(row: &Row, store: &'v Store<'_, 's>) -> Option<View<'v, 's>>
    ensures { option_map see_view result ≡ meant (see_store store.entry.now) row.now }
{
    match row {
        Row::Found(value) => store.view(*value),
        Row::Missing { .. } | Row::Unmade { .. } => None,
    }
}

/// What the one row of an argument stands for, where there is exactly one.
fn single<'v, 's>(rows: &[Row], store: &'v Store<'_, 's>) -> Option<View<'v, 's>>
    ensures { option_map see_view result ≡ single (see_store store.entry.now) rows.now }
{
    match rows {
        [row] => meant(row, store),
        _ => None,
    }
}

/// The text of an argument's one row.
pub fn single_text<'v>(rows: &[Row], store: &'v Store<'_, '_>) -> Option<&'v str>
    ensures { option_map (λ text. text.now) result ≡ single_text (see_store store.entry.now) rows.now }
{
    match single(rows, store) {
        None => None,
        Some(value) => text_of(value),
    }
}

/// The whole number of an argument's one row.
pub fn single_whole(rows: &[Row], store: &Store<'_, '_>) -> Option<i64>
    ensures { result ≡ single_whole (see_store store.now) rows.now }
{
    match single(rows, store) {
        None => None,
        Some(value) => match kind_of(value) {
            Kind::Whole(n) => Some(n),
            _ => None,
        },
    }
}

/// The text that a row stands for.
fn text_in<'v>(row: &Row, store: &'v Store<'_, '_>) -> Option<&'v str>
    ensures { option_map (λ text. text.now) result ≡ text_in (see_store store.entry.now) row.now }
{
    match meant(row, store) {
        None => None,
        Some(value) => text_of(value),
    }
}

/// The texts that rows stand for, where each stands for one.
pub fn texts_in<'v>(
    alloc: Global,
    rows: &[Row],
    store: &'v Store<'_, '_>,
) -> Result<Option<Vec<&'v str>>, AllocError>
    ensures { IfOk result (λ texts. option_map (λ found. map (λ text. text.now) found.items) texts ≡ texts_in (see_store store.entry.now) rows.now) }
{
    let mut texts = Vec::new(alloc);
    for row in rows {
        match text_in(row, store) {
            None => return Ok(None),
            Some(text) => texts.push(text)?,
        }
    }
    Ok(Some(texts))
}
