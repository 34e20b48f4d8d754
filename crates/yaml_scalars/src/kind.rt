//! The kinds of plain scalars.
ghost use Rattle.std.specs.Prelude.{ℕ, ◌≡◌, true, false, MatchOption};
ghost use Rattle.decimals.specs.declared.decimal.Num.{Num};
ghost use Rattle.doc_values.specs.declared.kind.Kind.{Kind};
ghost use Rattle.yaml_scalars.specs.Lines.{begins_with};
ghost use Rattle.yaml_scalars.specs.Kinds.{IsSignedNumber, IsPlainKind};
ghost use Rattle.yaml_scalars.specs.code.KindSteps.{IsNoWord, kind_of, IsOfWord};

use doc_values::{Kind, Num, read_number};

/// The kind that a text has as a word of its own.
fn word_kind(text: &str) -> Option<Kind>
    ensures { MatchOption result (IsNoWord text.now) (λ k. IsOfWord text.now k) }
{
    match text {
        "" | "~" | "null" | "Null" | "NULL" => Some(Kind::Null),
        "true" | "True" | "TRUE" => Some(Kind::Truth(true)),
        "false" | "False" | "FALSE" => Some(Kind::Truth(false)),
        _ => None,
    }
}

/// Whether a text begins with a byte.
fn begins_with(text: &str, byte: u8) -> bool
    ensures { result ≡ begins_with byte text.now }
{
    text.len() > 0 && text.as_bytes()[0] == byte
}

/// The number that a text spells, with a plus or a minus or none.
fn signed_number(text: &str) -> Option<Num>
    ensures { MatchOption result ((n : Num) → IsSignedNumber text.now n → ⊥) (λ n. IsSignedNumber text.now n) }
{
    if !begins_with(text, b'+') {
        return read_number(text);
    }
    let rest = &text[1..];
    if begins_with(rest, b'-') {
        return None;
    }
    read_number(rest)
}

/// The kind of a number.
fn kind_of(number: Num) -> Kind
    ensures { result ≡ kind_of number }
{
    match number {
        Num::Whole(whole) => Kind::Whole(whole),
        Num::Fraction(decimal) => Kind::Fraction(decimal),
    }
}

/// The kind of a plain scalar that is no key, by its text: a truth value, null, a number in range, or else a text. Takes
/// no memory and time linear in the text.
pub fn plain_kind(text: &str) -> Kind
    ensures { IsPlainKind text.now result }
{
    match word_kind(text) {
        Some(kind) => kind,
        None => match signed_number(text) {
            Some(number) => kind_of(number),
            None => Kind::Text,
        },
    }
}

/// A text has one kind as a plain scalar, so that a caller may speak of its kind. The call itself does nothing.
pub fn one_kind(text: &str)
    ensures { (a b : Kind) → IsPlainKind text.now a → IsPlainKind text.now b → a ≡ b }
{}
