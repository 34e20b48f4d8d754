//! Kinds and texts as they are stored.
ghost use Rattle.std.specs.Prelude.{◌≡◌, IfOk, [], false};
ghost use Rattle.std.specs.Cow.{cow_str_bytes};
ghost use Rattle.doc_values.specs.Tree.{has_text};
ghost use Rattle.doc_values.specs.code.Stored.{kind_of, text_of};

use crate::kind::Kind;
use decimals::{Decimal, Range};
use std::alloc::{AllocError, Global};
use std::borrow::CowStr;

/// A kind with its text in a node. What takes more room than all the rest and is rare stands apart: texts with escapes,
/// patterns and ranges. A pattern is owned: behind a box the borrow checker shortens no lifetime, and a tree of its own texts
/// has to stand where one that borrows may.
#[derive(Drop)]
pub enum Content<'s> {
    Null,
    Truth(bool),
    Whole(i64),
    Fraction(Decimal),
    Text(&'s str),
    OwnedText(Box<String>),
    List,
    Map,
    Pattern(Box<String>),
    Limits(Box<Range>),
}

impl<'s> Content<'s> {
    /// A kind and its text, stored.
    pub fn of(alloc: Global, kind: Kind, text: CowStr<'s>) -> Result<Content<'s>, AllocError>
        requires { has_text kind ≡ false → cow_str_bytes text ≡ [] }
        ensures kind { IfOk result (λ content. kind_of content ≡ kind) }
        ensures text { IfOk result (λ content. text_of content ≡ cow_str_bytes text.entry) }
    {
        Ok(match kind {
            Kind::Null => Content::Null,
            Kind::Truth(value) => Content::Truth(value),
            Kind::Whole(value) => Content::Whole(value),
            Kind::Fraction(value) => Content::Fraction(value),
            Kind::Text => Content::of_text(alloc, text)?,
            Kind::List => Content::List,
            Kind::Map => Content::Map,
            Kind::Pattern => Content::Pattern(Box::new(alloc, text.into_owned(alloc)?)?),
            Kind::Limits(range) => Content::Limits(Box::new(alloc, range)?),
        })
    }

    /// A text, stored.
    fn of_text(alloc: Global, text: CowStr<'s>) -> Result<Content<'s>, AllocError>
        ensures kind { IfOk result (λ content. kind_of content ≡ Kind.Text) }
        ensures text { IfOk result (λ content. text_of content ≡ cow_str_bytes text.entry) }
    {
        match text {
            CowStr::Borrowed(text) => Ok(Content::Text(text)),
            CowStr::Owned(text) => Ok(Content::OwnedText(Box::new(alloc, text)?)),
        }
    }

    /// The kind that is stored.
    pub fn kind(&self) -> Kind
        ensures { result ≡ kind_of self.now }
    {
        match self {
            Content::Null => Kind::Null,
            Content::Truth(value) => Kind::Truth(*value),
            Content::Whole(value) => Kind::Whole(*value),
            Content::Fraction(value) => Kind::Fraction(*value),
            Content::Text(_) | Content::OwnedText(_) => Kind::Text,
            Content::List => Kind::List,
            Content::Map => Kind::Map,
            Content::Pattern(_) => Kind::Pattern,
            Content::Limits(range) => Kind::Limits(**range),
        }
    }

    /// The text that is stored; nothing where the kind has none.
    pub fn text(&self) -> &str
        ensures { result.now ≡ text_of self.now }
    {
        match self {
            Content::Text(text) => *text,
            Content::OwnedText(text) => text.as_str(),
            Content::Pattern(text) => text.as_str(),
            _ => "",
        }
    }

    /// A copy with texts of its own.
    pub fn copy(&self, alloc: Global) -> Result<Content<'static>, AllocError>
        ensures kind { IfOk result (λ content. kind_of content ≡ kind_of self.now) }
        ensures text { IfOk result (λ content. text_of content ≡ text_of self.now) }
    {
        let text = String::from_str(alloc, self.text())?;
        Content::of(alloc, self.kind(), CowStr::Owned(text))
    }

    /// The same with texts of its own.
    pub fn detach(self, alloc: Global) -> Result<Content<'static>, AllocError>
        ensures kind { IfOk result (λ content. kind_of content ≡ kind_of self.entry) }
        ensures text { IfOk result (λ content. text_of content ≡ text_of self.entry) }
    {
        Ok(match self {
            Content::Null => Content::Null,
            Content::Truth(value) => Content::Truth(value),
            Content::Whole(value) => Content::Whole(value),
            Content::Fraction(value) => Content::Fraction(value),
            Content::Text(text) => {
                Content::OwnedText(Box::new(alloc, String::from_str(alloc, text)?)?)
            }
            Content::OwnedText(text) => Content::OwnedText(text),
            Content::List => Content::List,
            Content::Map => Content::Map,
            Content::Pattern(text) => Content::Pattern(text),
            Content::Limits(range) => Content::Limits(range),
        })
    }
}
