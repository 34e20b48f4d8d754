//! Patterns, which the crate of regular expressions reads, finds and replaces.
ghost use Rattle.std.specs.Prelude.{◌≡◌, IfOk, IsSome};
ghost use Rattle.rule_meaning.specs.PatternMatch.{pattern_in};
ghost use Rattle.pattern_books.specs.code.Matching.{IsMatcherOf};

use crate::replacer::Replacer;
use regex::{Matcher, Regex, Template};
use std::alloc::{AllocError, Global};
use std::marker::Model;

/// A pattern, which contracts see as the text that it was read from.
#[derive(Drop)]
pub struct Pattern {
    regex: Regex,
}

impl Model for Pattern {
    ghost use Rattle.std.specs.Prelude.{◌≡◌, ℕ, List};
    ghost use Rattle.regex.specs.Patterns.{default_config};
    ghost use Rattle.regex.specs.Strings.{regex_source, regex_config, IsReadFromSource};

    ghost Value = { List ℕ };

    ghost view = { λ p. regex_source p.regex };

    ghost invariant = { λ p. (regex_config p.regex ≡ default_config) × IsReadFromSource p.regex };
}

impl Pattern {
    ghost use Rattle.regex.specs.Patterns.{default_config};
    ghost use Rattle.regex.specs.Strings.{regex_source, regex_config, IsReadFromSource};

    /// Takes a regular expression that was read under the default options.
    pub fn of(regex: Regex) -> Pattern
        requires config { regex_config regex ≡ default_config }
        requires read { IsReadFromSource regex }
        ensures source { result ≡ regex_source regex }
        ensures read { IsSome (pattern_in result) }
    {
        Pattern { regex }
    }

    /// What finds the pattern in texts.
    pub fn matcher<'b>(&'b self, alloc: Global) -> Result<Matcher<'b>, AllocError>
        ensures { IfOk result (IsMatcherOf self.entry.now) }
    {
        self.regex.matcher(alloc)
    }

    /// What replaces each match of the pattern by what a template says.
    pub(crate) fn replacer<'b>(
        &'b self,
        alloc: Global,
        template: &'b str,
    ) -> Result<Replacer<'b>, AllocError>
        ensures pattern { IfOk result (λ r. r.pattern.now ≡ self.entry.now) }
        ensures template { IfOk result (λ r. r.template.now ≡ template.entry.now) }
    {
        let Ok(read) = Template::new(alloc, self.regex.capture_names(), template) else {
            return Err(AllocError);
        };
        match self.regex.matcher(alloc) {
            Ok(matcher) => Ok(Replacer {
                pattern: self,
                template,
                matcher,
                read,
            }),
            Err(_) => Err(AllocError),
        }
    }
}
