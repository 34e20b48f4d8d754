//! The patterns of a rule file by their texts.
ghost use Rattle.std.specs.Prelude.{◌≡◌, ◌++◌, ◌∷◌, [], true, false, IfOk, OnOk, Some, slice_get, string_bytes};
ghost use Rattle.value_store.specs.code.Books.{has_text};

use crate::pattern::Pattern;
use crate::replacer::Replacer;
use indexmap::IndexMap;
use std::alloc::{AllocError, Global};
use std::marker::Model;

/// The patterns of a rule file by their texts, which contracts see as the list of the texts.
#[derive(Drop)]
pub struct PatternBook {
    patterns: IndexMap<String, Pattern>,
}

impl Model for PatternBook {
    ghost use Rattle.std.specs.Prelude.{◌≡◌, ℕ, List, map, string_bytes, All};

    ghost Value = { List (List ℕ) };

    ghost view = { λ b. map (λ p. string_bytes p.0) b.patterns.entries };

    ghost invariant = { λ b. All (λ p. p.1 ≡ string_bytes p.0) b.patterns.entries };
}

impl PatternBook {
    /// No patterns.
    pub fn new(alloc: Global) -> PatternBook
        ensures { result ≡ [] }
    {
        PatternBook {
            patterns: IndexMap::new(alloc),
        }
    }

    /// Whether it has the pattern of a text.
    pub fn has(&self, text: &str) -> bool
        ensures { result ≡ has_text self.now text.now }
    {
        self.patterns.contains_key(text)
    }

    /// Adds the pattern of a text that it does not have. The pattern is dropped on a refusal.
    pub fn insert(&mut self, text: String, pattern: Pattern) -> Result<(), AllocError>
        requires pattern { pattern ≡ string_bytes text }
        requires absent { has_text self.old (string_bytes text) ≡ false }
        ensures { OnOk result (self.new ≡ self.old ++ string_bytes text ∷ []) }
    {
        match self.patterns.insert(text, pattern) {
            Ok(_) => Ok(()),
            Err(_) => Err(AllocError),
        }
    }

    /// The pattern of a text that it has, with its place among the others.
    pub fn find_full(&self, text: &str) -> (usize, &Pattern)
        requires { has_text self.now text.now ≡ true }
        ensures place { slice_get self.now result.0 ≡ Some text.now }
        ensures pattern { result.1.now ≡ text.now }
    {
        match self.patterns.get_full(text) {
            Some((place, _, pattern)) => (place, pattern),
            None => unreachable!(),
        }
    }

    /// What replaces each match of the pattern of a text that it has by what a template says.
    pub fn replacer<'b>(
        &'b self,
        alloc: Global,
        pattern: &str,
        template: &'b str,
    ) -> Result<Replacer<'b>, AllocError>
        requires { has_text self.now pattern.now ≡ true }
        ensures pattern { IfOk result (λ r. r.pattern.now ≡ pattern.now) }
        ensures template { IfOk result (λ r. r.template.now ≡ template.entry.now) }
    {
        let (_, found) = self.find_full(pattern);
        found.replacer(alloc, template)
    }
}
