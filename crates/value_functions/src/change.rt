//! What each function gives for one value.
ghost use Rattle.std.specs.Prelude.{◌≡◌, ℤ, IfOk, MatchOption, option_map, string_bytes};
ghost use Rattle.decimals.specs.Decimal.{Decimal};
ghost use Rattle.rule_meaning.specs.Functions.{IsBoolean, IsDecimalBy, IsDecoded, IsFloat, IsGiven, IsInt, IsJson, IsLower, IsPrinted, IsSubstring, IsUpper, IsWholeBy, printed_by, truth_by};
ghost use Rattle.value_store.specs.code.Views.{see_view};
ghost use Rattle.value_functions.specs.code.Gives.{gives};

use crate::numbers::{decimal_of, read_decimal, read_whole};
use crate::printed::{decimal_text, truth_text, whole_text};
use crate::texts::{parsed, part, truth_in, unescaped};
use crate::trees::{plain_tree, text_tree};
use crate::values::text_of;
use doc_values::{Decimal, Doc, Kind, Num};
use std::alloc::{AllocError, Global};
use value_store::View;

/// A function of one value, with its further arguments.
#[derive(Clone, Copy)]
pub enum Change {
    /// The tree of a text of at most 8 MiB that RFC 8259 accepts.
    JsonParse,
    /// A text with its ASCII letters in lower case.
    ToLower,
    /// A text with its ASCII letters in upper case.
    ToUpper,
    /// The bytes of a text from the first index up to the second, each where it is a single whole number. They have to be
    /// in order and within the text, and each where a character begins or the text ends.
    Substring(Option<i64>, Option<i64>),
    /// A text with its percent escapes decoded, if that is UTF-8. A plus stays.
    UrlDecode,
    /// A whole number itself, and that of a text of an optional sign and a whole number text in range.
    ParseInt,
    /// A decimal itself, a whole number below 10^18 in size as a decimal, and the same of a text of an optional sign and a
    /// number text.
    ParseFloat,
    /// A truth value itself, and that of a text `true` or `false` in any ASCII case.
    ParseBoolean,
    /// A text itself, and a whole number, a decimal or a truth value as it is printed.
    ParseString,
}

/// The tree that a function gives for a value, if it applies.
pub fn given(
    alloc: Global,
    change: Change,
    value: View<'_, '_>,
) -> Result<Option<Doc<'static>>, AllocError>
    ensures { IfOk result (IsGiven (gives change (see_view value.entry))) }
{
    match change {
        Change::JsonParse => json(alloc, value),
        Change::ToLower => lower(alloc, value),
        Change::ToUpper => upper(alloc, value),
        Change::Substring(from, to) => substring(alloc, from, to, value),
        Change::UrlDecode => decoded(alloc, value),
        Change::ParseInt => int(alloc, value),
        Change::ParseFloat => float(alloc, value),
        Change::ParseBoolean => boolean(alloc, value),
        Change::ParseString => printed(alloc, value),
    }
}

fn json(alloc: Global, value: View<'_, '_>) -> Result<Option<Doc<'static>>, AllocError>
    ensures { IfOk result (IsGiven (IsJson (see_view value.entry))) }
{
    match text_of(value) {
        None => Ok(None),
        Some(text) => parsed(alloc, text),
    }
}

fn lower(alloc: Global, value: View<'_, '_>) -> Result<Option<Doc<'static>>, AllocError>
    ensures { IfOk result (IsGiven (IsLower (see_view value.entry))) }
{
    match text_of(value) {
        None => Ok(None),
        Some(text) => Ok(Some(text_tree(alloc, text.to_ascii_lowercase(alloc)?)?)),
    }
}

fn upper(alloc: Global, value: View<'_, '_>) -> Result<Option<Doc<'static>>, AllocError>
    ensures { IfOk result (IsGiven (IsUpper (see_view value.entry))) }
{
    match text_of(value) {
        None => Ok(None),
        Some(text) => Ok(Some(text_tree(alloc, text.to_ascii_uppercase(alloc)?)?)),
    }
}

fn substring(
    alloc: Global,
    from: Option<i64>,
    to: Option<i64>,
    value: View<'_, '_>,
) -> Result<Option<Doc<'static>>, AllocError>
    ensures { IfOk result (IsGiven (IsSubstring from to (see_view value.entry))) }
{
    match text_of(value) {
        None => Ok(None),
        Some(text) => part(alloc, from, to, text),
    }
}

fn decoded(alloc: Global, value: View<'_, '_>) -> Result<Option<Doc<'static>>, AllocError>
    ensures { IfOk result (IsGiven (IsDecoded (see_view value.entry))) }
{
    match text_of(value) {
        None => Ok(None),
        Some(text) => unescaped(alloc, text),
    }
}

/// The whole number that a value is or spells.
fn whole_in(value: View<'_, '_>) -> Option<i64>
    ensures { MatchOption result
        ((n : ℤ) → IsWholeBy (see_view value.entry).kind (see_view value.entry).text n → ⊥)
        (λ n. IsWholeBy (see_view value.entry).kind (see_view value.entry).text n) }
{
    match value {
        View::Key(text) => read_whole(text),
        View::At(node) => match node.kind() {
            Kind::Whole(n) => Some(n),
            Kind::Text => read_whole(node.text()),
            _ => None,
        },
    }
}

fn int(alloc: Global, value: View<'_, '_>) -> Result<Option<Doc<'static>>, AllocError>
    ensures { IfOk result (IsGiven (IsInt (see_view value.entry))) }
{
    match whole_in(value) {
        None => Ok(None),
        Some(n) => Ok(Some(plain_tree(alloc, Kind::Whole(n))?)),
    }
}

/// The decimal that a value is or spells.
fn decimal_in(value: View<'_, '_>) -> Option<Decimal>
    ensures { MatchOption result
        ((d : Decimal) → IsDecimalBy (see_view value.entry).kind (see_view value.entry).text d → ⊥)
        (λ d. IsDecimalBy (see_view value.entry).kind (see_view value.entry).text d) }
{
    match value {
        View::Key(text) => read_decimal(text),
        View::At(node) => match node.kind() {
            Kind::Whole(n) => decimal_of(Num::Whole(n)),
            Kind::Fraction(d) => Some(d),
            Kind::Text => read_decimal(node.text()),
            _ => None,
        },
    }
}

fn float(alloc: Global, value: View<'_, '_>) -> Result<Option<Doc<'static>>, AllocError>
    ensures { IfOk result (IsGiven (IsFloat (see_view value.entry))) }
{
    match decimal_in(value) {
        None => Ok(None),
        Some(d) => Ok(Some(plain_tree(alloc, Kind::Fraction(d))?)),
    }
}

/// The truth value that a value is or spells.
fn truth_of(value: View<'_, '_>) -> Option<bool>
    ensures { result ≡ truth_by (see_view value.entry).kind (see_view value.entry).text }
{
    match value {
        View::Key(text) => truth_in(text),
        View::At(node) => match node.kind() {
            Kind::Truth(truth) => Some(truth),
            Kind::Text => truth_in(node.text()),
            _ => None,
        },
    }
}

fn boolean(alloc: Global, value: View<'_, '_>) -> Result<Option<Doc<'static>>, AllocError>
    ensures { IfOk result (IsGiven (IsBoolean (see_view value.entry))) }
{
    match truth_of(value) {
        None => Ok(None),
        Some(truth) => Ok(Some(plain_tree(alloc, Kind::Truth(truth))?)),
    }
}

/// A value as it is printed, a text without quotes.
fn print(alloc: Global, value: View<'_, '_>) -> Result<Option<String>, AllocError>
    ensures { IfOk result (λ text. option_map string_bytes text ≡ printed_by (see_view value.entry).kind (see_view value.entry).text) }
{
    match value {
        View::Key(text) => Ok(Some(String::from_str(alloc, text)?)),
        View::At(node) => match node.kind() {
            Kind::Text => Ok(Some(String::from_str(alloc, node.text())?)),
            Kind::Whole(n) => Ok(Some(whole_text(alloc, n)?)),
            Kind::Fraction(d) => Ok(Some(decimal_text(alloc, d)?)),
            Kind::Truth(truth) => Ok(Some(String::from_str(alloc, truth_text(truth))?)),
            _ => Ok(None),
        },
    }
}

fn printed(alloc: Global, value: View<'_, '_>) -> Result<Option<Doc<'static>>, AllocError>
    ensures { IfOk result (IsGiven (IsPrinted (see_view value.entry))) }
{
    match print(alloc, value)? {
        None => Ok(None),
        Some(text) => Ok(Some(text_tree(alloc, text)?)),
    }
}
