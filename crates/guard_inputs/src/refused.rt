//! Refusals with their lines.
ghost use Rattle.std.specs.Prelude.{◌≡◌, ◌≤◌, ℕ, List, Some, None, length, string_bytes, IfOk};
ghost use Rattle.doc_values.specs.Limits.{template_limit};
ghost use Rattle.guard_ends.specs.Inputs.{json_kind, lex_kind, name_kind, name_said, of_yaml, parse_kind};
ghost use Rattle.guard_ends.specs.Order.{refused};
ghost use Rattle.guard_inputs.specs.code.Refusals.{said, IsRefusedAs};

use crate::line::{evidence_line, named_line, placed_line, whole_line};
use crate::written::Written;
use guard_ends::{Refusal, RefusalKind, Which};
use guard_lexer::LexRefusal;
use guard_parser::ParseRefusal;
use guard_syntax::{Name, Text};
use json_reader::JsonRefusal;
use rule_names::NameKind;
use std::alloc::{AllocError, Global};
use yaml_blocks::YamlRefusal;

/// A refusal and its line on err.
#[derive(Drop)]
pub struct Refused {
    pub refusal: Refusal,
    pub line: Written,
}

/// A file with too many bytes.
pub(crate) fn too_long(which: Which) -> Refused
    ensures { (bytes : List ℕ) → said result ≡ refused bytes (Refusal.TooLong which) }
{
    Refused {
        refusal: Refusal::TooLong(which),
        line: Written::Short(whole_line(which, "TooLong")),
    }
}

/// Evidence whose line of this number is the first that is not in the format.
pub fn not_evidence(number: u64) -> Refused
    ensures { (bytes : List ℕ) → said result ≡ refused bytes (Refusal.EvidenceSyntax number) }
{
    Refused {
        refusal: Refusal::EvidenceSyntax(number),
        line: Written::Short(evidence_line(number)),
    }
}

/// A template of which too long rules are generated.
pub fn text_too_long() -> Refused
    ensures { (bytes : List ℕ) → said result ≡ refused bytes Refusal.TextTooLong }
{
    Refused {
        refusal: Refusal::TextTooLong,
        line: Written::Short(whole_line(Which::Template, "TextTooLong")),
    }
}

/// A file that is not UTF-8.
pub(crate) fn not_text(which: Which) -> Refused
    ensures { (bytes : List ℕ) → said result ≡ refused bytes (Refusal.NotText which) }
{
    Refused {
        refusal: Refusal::NotText(which),
        line: Written::Short(whole_line(which, "NotText")),
    }
}

/// A file with these bytes, refused at a byte offset.
pub(crate) fn refused_at(which: Which, kind: RefusalKind, at: u32, bytes: &[u8]) -> Refused
    requires { length bytes.now ≤ template_limit }
    ensures { said result ≡ refused bytes.now (Refusal.At which kind at None) }
{
    Refused {
        refusal: Refusal::At {
            which,
            kind,
            at,
            name: None,
        },
        line: Written::Short(placed_line(which, kind, at, bytes)),
    }
}

/// Rules with these bytes, refused for a name at a byte offset. What is too deep is about no name.
pub(crate) fn refused_name(
    alloc: Global,
    kind: NameKind,
    name: Text,
    at: u32,
    bytes: &[u8],
) -> Result<Refused, AllocError>
    requires { length bytes.now ≤ template_limit }
    ensures { IfOk result (λ r. said r ≡ refused bytes.now (Refusal.At Which.Rules (name_kind kind) at (name_said kind name))) }
{
    let named = name_said(kind, name);
    let kind = name_kind(kind);
    let Some(name) = named else {
        return Ok(refused_at(Which::Rules, kind, at, bytes));
    };
    refused_for(alloc, Which::Rules, kind, Name::new(name, at), bytes)
}

/// Tests with these bytes, refused at a byte offset for the name of no rule that is reported.
pub(crate) fn refused_rule(
    alloc: Global,
    name: String,
    at: u32,
    bytes: &[u8],
) -> Result<Refused, AllocError>
    requires { length bytes.now ≤ template_limit }
    ensures { IfOk result (λ r. said r ≡ refused bytes.now (Refusal.At Which.Tests RefusalKind.NoSuchRule at (Some (string_bytes name)))) }
{
    let name = Name::new(Text::new(name), at);
    refused_for(alloc, Which::Tests, RefusalKind::NoSuchRule, name, bytes)
}

/// A file with these bytes, refused for a name where that stands. The line is as long as the name, so it is made in memory.
fn refused_for(
    alloc: Global,
    which: Which,
    kind: RefusalKind,
    name: Name,
    bytes: &[u8],
) -> Result<Refused, AllocError>
    requires { length bytes.now ≤ template_limit }
    ensures { IfOk result (λ r. said r ≡ refused bytes.now (Refusal.At which kind name.at (Some name.text))) }
{
    let line = named_line(alloc, which, kind, &name, bytes)?;
    Ok(Refused {
        refusal: Refusal::At {
            which,
            kind,
            at: name.at(),
            name: Some(name.into_text()),
        },
        line: Written::Long(line.into_bytes()),
    })
}

/// The kind of a refusal of names.
fn name_kind(kind: NameKind) -> RefusalKind
    ensures { result ≡ name_kind kind }
{
    match kind {
        NameKind::DuplicateRule => RefusalKind::DuplicateRule,
        NameKind::DuplicateName => RefusalKind::DuplicateName,
        NameKind::UnknownRule => RefusalKind::UnknownRule,
        NameKind::UnknownVariable => RefusalKind::UnknownVariable,
        NameKind::UnknownFunction => RefusalKind::UnknownFunction,
        NameKind::NeedsArguments => RefusalKind::NeedsArguments,
        NameKind::TakesNone => RefusalKind::TakesNone,
        NameKind::ArgCount => RefusalKind::ArgCount,
        NameKind::LiteralWanted => RefusalKind::LiteralWanted,
        NameKind::RecursiveRule => RefusalKind::RecursiveRule,
        NameKind::RecursiveVariable => RefusalKind::RecursiveVariable,
        NameKind::TooDeep => RefusalKind::TooDeep,
    }
}

/// The name that a refusal is about: what is too deep is about none.
fn name_said(kind: NameKind, name: Text) -> Option<Text>
    ensures { result ≡ name_said kind name }
{
    match kind {
        NameKind::TooDeep => None,
        NameKind::DuplicateRule
        | NameKind::DuplicateName
        | NameKind::UnknownRule
        | NameKind::UnknownVariable
        | NameKind::UnknownFunction
        | NameKind::NeedsArguments
        | NameKind::TakesNone
        | NameKind::ArgCount
        | NameKind::LiteralWanted
        | NameKind::RecursiveRule
        | NameKind::RecursiveVariable => Some(name),
    }
}

/// The kind and the place of a refusal of tokens.
pub(crate) fn lex_kind(refusal: LexRefusal) -> Option<(RefusalKind, u32)>
    ensures { result ≡ lex_kind refusal }
{
    match refusal {
        LexRefusal::Unclosed(at) => Some((RefusalKind::Unclosed, at)),
        LexRefusal::BadByte(at) => Some((RefusalKind::BadByte, at)),
        LexRefusal::NumberRange(at) => Some((RefusalKind::NumberRange, at)),
        LexRefusal::NoMemory => None,
    }
}

/// The kind and the place of a refusal of syntax.
pub(crate) fn parse_kind(refusal: ParseRefusal) -> Option<(RefusalKind, u32)>
    ensures { result ≡ parse_kind refusal }
{
    match refusal {
        ParseRefusal::NestTooDeep(at) => Some((RefusalKind::NestTooDeep, at)),
        ParseRefusal::Syntax(at) => Some((RefusalKind::Syntax, at)),
        ParseRefusal::BadRange(at) => Some((RefusalKind::BadRange, at)),
        ParseRefusal::NoMemory => None,
    }
}

/// The kind and the place of a refusal of JSON.
pub(crate) fn json_kind(refusal: JsonRefusal) -> Option<(RefusalKind, u32)>
    ensures { result ≡ json_kind refusal }
{
    match refusal {
        JsonRefusal::Syntax(at) => Some((RefusalKind::Syntax, at)),
        JsonRefusal::DuplicateKey(at) => Some((RefusalKind::DuplicateKey, at)),
        JsonRefusal::NumberRange(at) => Some((RefusalKind::NumberRange, at)),
        JsonRefusal::TooDeep(at) => Some((RefusalKind::TooDeep, at)),
        JsonRefusal::NoMemory => None,
    }
}

/// A file with this text, refused by a refusal of YAML. Want of memory is none.
pub(crate) fn yaml_refused(which: Which, refusal: YamlRefusal, text: &str) -> Option<Refused>
    requires { length text.now ≤ template_limit }
    ensures { IsRefusedAs (of_yaml which refusal) text.now result }
{
    match refusal {
        YamlRefusal::Syntax(at) => Some(data_at(which, RefusalKind::Syntax, at, text)),
        YamlRefusal::Tab(at) => Some(data_at(which, RefusalKind::Tab, at, text)),
        YamlRefusal::Anchor(at) => Some(data_at(which, RefusalKind::Anchor, at, text)),
        YamlRefusal::Tag(at) => Some(data_at(which, RefusalKind::Tag, at, text)),
        YamlRefusal::Directive(at) => Some(data_at(which, RefusalKind::Directive, at, text)),
        YamlRefusal::ManyDocuments(at) => Some(data_at(
            which,
            RefusalKind::ManyDocuments,
            at,
            text,
        )),
        YamlRefusal::DuplicateKey(at) => Some(data_at(which, RefusalKind::DuplicateKey, at, text)),
        YamlRefusal::TooDeep(at) => Some(data_at(which, RefusalKind::TooDeep, at, text)),
        YamlRefusal::NoMemory => None,
    }
}

/// A file with this text, refused at a byte offset.
pub(crate) fn data_at(which: Which, kind: RefusalKind, at: u32, text: &str) -> Refused
    requires { length text.now ≤ template_limit }
    ensures { said result ≡ refused text.now (Refusal.At which kind at None) }
{
    refused_at(which, kind, at, text.as_bytes())
}
