//! What the calls of these tests are made over: rule files, a template that is a text alone, and templates of JSON.
ghost use Rattle.std.specs.Prelude.{◌≡◌, ◌≤◌, List, false, length, IfSome};
ghost use Rattle.doc_values.specs.Limits.{rules_limit};
ghost use Rattle.guard_lexer.specs.Lexes as lex;
ghost use Rattle.guard_lexer.specs.declared.token.Token.{Token};
ghost use Rattle.guard_parser.specs.File.{Rules};
ghost use Rattle.guard_syntax.specs.code.Seen.{see_file};
ghost use Rattle.rule_meaning.specs.Functions.{text_tree};
ghost use Rattle.rule_meaning.specs.Values.{has_pattern};

use doc_values::{Doc, DocBuilder, Kind, RULES_LIMIT, TEMPLATE_LIMIT};
use guard_lexer::{Token, tokens};
use guard_parser::{parse, queries_begin, sites_in_order};
use guard_syntax::RawFile;
use json_reader::read_json;
use name_table::resolve;
use rule_names::RuleFile;
use std::alloc::Global;
use std::borrow::CowStr;

/// The rule file of a text; None where it has none.
pub(crate) fn file_of(alloc: Global, text: &str) -> Option<RuleFile> {
    if RULES_LIMIT < text.len() {
        return None;
    }
    match tokens(alloc, text) {
        Ok(found) => file_of_tokens(alloc, text, &found),
        Err(_) => None,
    }
}

/// The rule file of the tokens of a text.
fn file_of_tokens(alloc: Global, text: &str, tokens: &[Token]) -> Option<RuleFile>
    requires short { length text.now ≤ rules_limit }
    requires tokens { lex.IsTokenList text.now tokens.now }
{
    match parse(alloc, text, tokens) {
        Ok(raw) => file_of_syntax(alloc, text, raw),
        Err(_) => None,
    }
}

/// The rule file of the syntax of a text.
fn file_of_syntax(alloc: Global, text: &str, raw: RawFile) -> Option<RuleFile>
    requires { (tokens : List Token) × lex.IsTokenList text.now tokens × Rules text.now tokens (see_file raw) }
{
    sites_in_order();
    queries_begin();
    match resolve(alloc, raw) {
        Ok(file) => Some(file),
        Err(_) => None,
    }
}

/// A template that is a text alone.
pub(crate) fn template_of(alloc: Global, text: &'static str) -> Option<Doc<'static>>
    ensures { IfSome result (λ tree. tree ≡ text_tree text.now) }
{
    let mut builder: DocBuilder<'static> = DocBuilder::new(alloc);
    match builder.scalar(Kind::Text, CowStr::Borrowed(text), 0) {
        Ok(()) => Some(builder.finish()),
        Err(_) => None,
    }
}

/// A template of JSON.
pub(crate) fn json_template_of(alloc: Global, text: &'static str) -> Option<Doc<'static>>
    ensures { IfSome result (λ tree. has_pattern tree ≡ false) }
{
    if TEMPLATE_LIMIT < text.len() {
        return None;
    }
    match read_json(alloc, text) {
        Ok(tree) => Some(tree),
        Err(_) => None,
    }
}
