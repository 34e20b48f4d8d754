//! The signs that tell why a text is no document, but for equal keys and depth.
ghost use Rattle.std.specs.Prelude.{◌≡◌, ◌≤◌, ◌&&◌, not, length, true, false, None, Some, option_map, nat_eq, if◌then◌else◌, MatchOption};
ghost use Rattle.std.specs.Str.{IsCharBoundary};
ghost use Rattle.yaml_scalars.specs.code.Limits.{text_limit};
ghost use Rattle.yaml_grammar.specs.Ahead.{ahead};
ghost use Rattle.yaml_grammar.specs.Nodes.{node_sign, is_tagged, is_marked};
ghost use Rattle.yaml_grammar.specs.code.Refused.{of_sign};
ghost use Rattle.yaml_grammar.specs.code.Steps.{IsSeen, is_ending};
ghost use Rattle.yaml_grammar.specs.Yaml.{IsEnd, is_content, late_sign, end_sign, text_start, start_sign};

use crate::ahead::look;
use crate::node::offset;
use yaml_grammar::{Ahead, Form, Stop, Token};

/// Whether a token is content.
fn is_content(token: Token) -> bool
    ensures { result ≡ is_content token }
{
    match token {
        Token::End | Token::Stray => false,
        _ => true,
    }
}

/// The sign that a token is where a node or a key may begin, if it is one; `tagged` behind a tag.
pub fn node_sign(tagged: bool, next: Ahead) -> Option<Stop>
    requires { next.at ≤ text_limit }
    ensures { MatchOption result (node_sign tagged next.at next.token ≡ None) (λ e. Some e ≡ option_map of_sign (node_sign tagged next.at next.token)) }
{
    match next.token {
        Token::Anchor => Some(Stop::Anchor(offset(next.at))),
        Token::NoTag => Some(Stop::Tag(offset(next.at))),
        Token::Tag { len: _ } => {
            if tagged {
                Some(Stop::Tag(offset(next.at)))
            } else {
                None
            }
        }
        _ => None,
    }
}

/// Whether a node stands behind a tag.
pub fn is_tagged(form: Form) -> bool
    ensures { result ≡ is_tagged form }
{
    match form {
        Form::FlowTagged { at: _ } | Form::Tagged { .. } => true,
        _ => false,
    }
}

/// Whether a line `---` or `...` is ahead.
pub fn is_marked(token: Token) -> bool
    ensures { result ≡ is_marked token }
{
    match token {
        Token::Dashes | Token::Dots => true,
        _ => false,
    }
}

/// Whether the document may end at a token, or a sign stands there behind it.
pub fn is_ending(token: Token) -> bool
    ensures { result ≡ is_ending token }
{
    match token {
        Token::End | Token::Dashes | Token::Dots | Token::Tabbed => true,
        _ => false,
    }
}

/// The place of content behind a mark, where another document begins.
fn late_place(mark: usize, next: Ahead) -> usize
    ensures { result ≡ (if next.fresh then next.at else mark) }
{
    if next.fresh { next.at } else { mark }
}

/// The sign that a token behind a mark is, if it is one.
fn late_sign(mark: usize, next: Ahead) -> Option<Stop>
    requires small { next.at ≤ text_limit }
    requires mark { mark ≤ text_limit }
    ensures { result ≡ option_map of_sign (late_sign mark next next.token) }
{
    match next.token {
        Token::End | Token::Stray => None,
        Token::Tabbed => Some(Stop::Tab(offset(next.at))),
        _ => Some(Stop::ManyDocuments(offset(late_place(mark, next)))),
    }
}

/// The sign that stands behind the root, if one does.
pub fn end_sign(text: &str, at: usize, next: Ahead) -> Option<Stop>
    requires small { length text.now ≤ text_limit }
    requires seen { IsSeen text.now false at next }
    ensures { result ≡ option_map of_sign (end_sign text.now at) }
{
    match next.token {
        Token::Dashes => Some(Stop::ManyDocuments(offset(next.at))),
        Token::Dots => late_sign(next.at, look(text, false, next.behind)),
        Token::Tabbed => Some(Stop::Tab(offset(next.at))),
        _ => None,
    }
}

/// Whether nothing stands behind a place.
fn is_text_end(text: &str, at: usize) -> bool
    requires small { length text.now ≤ text_limit }
    requires boundary { IsCharBoundary text.now at }
    ensures yes { result ≡ true → (ahead text.now false at).token ≡ Token.End }
    ensures no { result ≡ false → (ahead text.now false at).token ≡ Token.End → ⊥ }
{
    match look(text, false, at).token {
        Token::End => true,
        _ => false,
    }
}

/// Whether the document ends at a token.
pub fn is_document_end(text: &str, at: usize, next: Ahead) -> bool
    requires small { length text.now ≤ text_limit }
    requires seen { IsSeen text.now false at next }
    ensures yes { result ≡ true → IsEnd text.now at }
    ensures no { result ≡ false → IsEnd text.now at → ⊥ }
{
    match next.token {
        Token::End => true,
        Token::Dots => is_text_end(text, next.behind),
        _ => false,
    }
}

/// Whether content stands on a line behind its mark.
fn has_content(next: Ahead) -> bool
    ensures { result ≡ (not next.fresh && is_content next.token) }
{
    !next.fresh && is_content(next.token)
}

/// Whether a token stands at a line's first column.
fn is_first(next: Ahead) -> bool
    ensures { result ≡ (next.fresh && nat_eq next.column 0) }
{
    next.fresh && next.column == 0
}

/// The sign that stands in front of the document, if one does.
pub fn start_sign(text: &str, next: Ahead) -> Option<Stop>
    requires small { length text.now ≤ text_limit }
    requires seen { IsSeen text.now false (text_start text.now) next }
    ensures { result ≡ option_map of_sign (start_sign text.now) }
{
    match next.token {
        Token::Percent => {
            if is_first(next) {
                Some(Stop::Directive(offset(next.at)))
            } else {
                None
            }
        }
        Token::Dashes => {
            if has_content(look(text, false, next.behind)) {
                Some(Stop::ManyDocuments(offset(next.at)))
            } else {
                None
            }
        }
        _ => None,
    }
}
