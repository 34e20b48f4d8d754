//! Texts that end in a carriage return: what they are with a line feed behind them decides.
ghost use Rattle.std.specs.Prelude.{ℕ, suc, List, [], ◌∷◌, ◌++◌, ◌≡◌, ◌≤◌, ◌<◌, length, IfOk, string_bytes};
ghost use Rattle.yaml_scalars.specs.Lines.{ends_with};
ghost use Rattle.yaml_scalars.specs.code.Limits.{text_limit};
ghost use Rattle.yaml_grammar.specs.Places.{IsSyntax};
ghost use Rattle.yaml_grammar.specs.code.ReadAgain.{StopsAgain};

use std::alloc::{AllocError, Global};
use yaml_grammar::Stop;
use yaml_nodes::node::offset;

/// Whether a carriage return ends a text.
pub fn ends_in_return(bytes: &[u8]) -> bool
    ensures { result ≡ ends_with 13 bytes.now }
{
    if bytes.is_empty() {
        return false;
    }
    bytes[bytes.len() - 1] == 13
}

/// A text with a line feed behind it.
pub fn fed(alloc: Global, text: &str) -> Result<String, AllocError>
    ensures { IfOk result (λ longer. string_bytes longer ≡ text.now ++ (10 ∷ [])) }
{
    let mut longer = String::from_str(alloc, text)?;
    longer.push_str("\n")?;
    Ok(longer)
}

/// The place of a text of this length that ends in a carriage return, by the place of the text with a line feed behind it.
fn place_before(len: usize, at: usize) -> usize
    requires { 0 < len }
    ensures is { (front : List ℕ) → len ≡ suc (length front) → IsSyntax ((front ++ (13 ∷ [])) ++ (10 ∷ [])) at → IsSyntax (front ++ (13 ∷ [])) result }
    ensures within { result ≤ len }
{
    if at < len {
        return at;
    }
    if at == len {
        return len - 1;
    }
    len
}

/// The place at which a text of this length that ends in a carriage return shows that it is no document, by why reading stops
/// with a line feed behind it.
pub fn returned_place(len: usize, again: Stop) -> u32
    requires small { len ≤ text_limit }
    requires some { 0 < len }
    ensures { (front : List ℕ) → len ≡ suc (length front) → StopsAgain ((front ++ (13 ∷ [])) ++ (10 ∷ [])) again → IsSyntax (front ++ (13 ∷ [])) result }
{
    match again {
        Stop::Unread(at) => offset(place_before(len, at as usize)),
        _ => offset(len - 1),
    }
}

/// A place that is no earlier than the last byte of a text of this length, by one that may be: behind a place at which the text is
/// no document each of its places is one.
pub fn place_at_end(len: usize, at: u32) -> u32
    requires small { len ≤ text_limit }
    requires some { 0 < len }
    ensures late { len ≤ suc result }
    ensures is { (text : List ℕ) → len ≡ length text → IsSyntax text at → IsSyntax text result }
{
    let last = offset(len - 1);
    if at < last { last } else { at }
}
