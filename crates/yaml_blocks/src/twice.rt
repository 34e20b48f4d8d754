//! Texts with the place at which they are no document; those that end in a carriage return are read twice.
ghost use Rattle.std.specs.Prelude.{ℕ, List, [], ◌∷◌, ◌++◌, ◌≡◌, ◌<◌, ◌≤◌, ◌⊎◌, ◌^◌, length, true, false, IsErrOf, IfOk, MatchResult};
ghost use Rattle.std.specs.Result.{IfErr};
ghost use Rattle.doc_values.specs.Limits.{template_limit};
ghost use Rattle.doc_values.specs.Tree.{size};
ghost use Rattle.yaml_grammar.specs.Answers.{Reads};
ghost use Rattle.yaml_grammar.specs.Places.{IsSyntax};
ghost use Rattle.yaml_grammar.specs.Yaml.{IsStart};
ghost use Rattle.yaml_grammar.specs.code.Memory.{BeginsDocument};
ghost use Rattle.yaml_grammar.specs.code.Places.{IsSyntaxStop};
ghost use Rattle.yaml_grammar.specs.code.ReadAgain.{SaysAgain};
ghost use Rattle.yaml_grammar.specs.code.Refused.{IsStopped};

use crate::read::{document_start, read_document, text_start};
use doc_values::Doc;
use std::alloc::Global;
use yaml_grammar::{Stop, Token};
use yaml_nodes::ahead::{bytes_ahead, look};
use yaml_nodes::node::offset;
use yaml_steps::returned::{ends_in_return, fed, place_at_end, returned_place};

/// Whether a document begins in a text.
fn begins_document(text: &str) -> bool
    requires { length text.now ≤ template_limit }
    ensures yes { result ≡ true → BeginsDocument text.now }
    ensures no { result ≡ false → BeginsDocument text.now → ⊥ }
{
    match document_start(text) {
        Ok(_) => true,
        Err(_) => false,
    }
}

/// The place of a text that ends in a carriage return, in which no document begins since a comment or white space with one
/// stands behind a line `---`: the length where the carriage return ends that, and nothing else stands there.
fn start_place(text: &str) -> u32
    requires small { length text.now ≤ template_limit }
    requires returned { (front : List ℕ) × (text.now ≡ front ++ (13 ∷ [])) }
    requires nowhere { (i : ℕ) → IsStart text.now i → ⊥ }
    ensures { IsSyntax text.now result }
{
    let bytes = text.as_bytes();
    let next = look(text, false, text_start(text));
    let last = bytes.len() - 1;
    match bytes_ahead(&bytes[..last], false, next.behind).token {
        Token::End => offset(bytes.len()),
        _ => offset(last),
    }
}

/// Why reading stops in a text that ends in a carriage return, with a line feed behind it; none where that is a document.
fn stop_again(alloc: Global, text: &str) -> Option<Stop>
    requires small { length text.now ≤ template_limit }
    requires returned { (front : List ℕ) × (text.now ≡ front ++ (13 ∷ [])) }
    ensures { SaysAgain (text.now ++ (10 ∷ [])) result }
{
    let longer = match fed(alloc, text) {
        Ok(longer) => longer,
        Err(_) => return Some(Stop::NoMemory),
    };
    match read_document(alloc, longer.as_str()) {
        Ok(_) => None,
        Err(stop) => Some(stop),
    }
}

/// Why a text that ends in a carriage return and is not read is no document, where that shows at its last byte or behind it: the
/// place is told by the same text with a line feed behind it.
fn read_again(alloc: Global, text: &str) -> Stop
    requires small { length text.now ≤ template_limit }
    requires returned { (front : List ℕ) × (text.now ≡ front ++ (13 ∷ [])) }
    ensures unread { (result ≡ Stop.NoMemory) ⊎ ((place : ℕ) × (result ≡ Stop.Unread place)) }
    ensures placed { IsSyntaxStop text.now result }
{
    match stop_again(alloc, text) {
        None => Stop::Unread(offset(text.len())),
        Some(stop) => match stop {
            Stop::NoMemory => Stop::NoMemory,
            _ => Stop::Unread(place_at_end(text.len(), returned_place(text.len(), stop))),
        },
    }
}

/// The tree of a text, or why it is refused, with the place at which it is no document where no sign counts.
pub(crate) fn read_placed<'s>(alloc: Global, text: &'s str) -> Result<Doc<'s>, Stop>
    requires { length text.now ≤ template_limit }
    ensures answer { MatchResult result (λ d. Reads text.now d) (λ e. IsStopped text.now e) }
    ensures small { IfOk result (λ d. size d < 2 ^ 31) }
    ensures memory { IsErrOf result Stop.NoMemory → BeginsDocument text.now }
    ensures placed { IfErr result (λ e. IsSyntaxStop text.now e) }
{
    match read_document(alloc, text) {
        Ok(doc) => Ok(doc),
        Err(Stop::Unread(at)) => {
            if !ends_in_return(text.as_bytes()) {
                return Err(Stop::Unread(at));
            }
            if !begins_document(text) {
                return Err(Stop::Unread(start_place(text)));
            }
            if (at as usize) + 1 < text.len() {
                return Err(Stop::Unread(at));
            }
            Err(read_again(alloc, text))
        }
        Err(stop) => Err(stop),
    }
}
