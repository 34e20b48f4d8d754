//! A pattern and a template, with what replaces the one by the other.
ghost use Rattle.std.specs.Prelude.{◌≡◌, IfOk, Some, string_bytes};
ghost use Rattle.rule_meaning.specs.Functions.{replaced_in};
ghost use Rattle.pattern_books.specs.code.Matching.{IsReplacerOf};

use crate::pattern::Pattern;
use regex::{Matcher, Template};
use std::alloc::{AllocError, Global};

/// A pattern and a template, with what replaces each match of the one by what the other says. Its caches grow as it is
/// used.
#[derive(Drop)]
pub struct Replacer<'b> {
    pub pattern: &'b Pattern,
    pub template: &'b str,
    pub(crate) matcher: Matcher<'b>,
    pub(crate) read: Template,
    ghost fits: { IsReplacerOf pattern.now template.now matcher read },
}

impl<'b> Replacer<'b> {
    /// A text with each match replaced.
    pub fn replaced(&mut self, alloc: Global, text: &str) -> Result<String, AllocError>
        ensures replaced { IfOk result (λ out. replaced_in self.old.pattern.now self.old.template.now text.now ≡ Some (string_bytes out)) }
        ensures pattern { self.new.pattern.now ≡ self.old.pattern.now }
        ensures template { self.new.template.now ≡ self.old.template.now }
    {
        self.matcher.replace_all(alloc, text, &self.read)
    }
}
