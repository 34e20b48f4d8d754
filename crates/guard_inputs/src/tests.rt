//! Tests of rules. They are loaded beside the rules, then read, and then the patterns of the rules are made.
ghost use Rattle.std.specs.Prelude.{◌≡◌, ◌<◌, All, false};
ghost use Rattle.doc_values.specs.Tree.{size};
ghost use Rattle.rule_names.specs.code.Files.{file_of};
ghost use Rattle.value_store.specs.code.Books.{IsBookOf};
ghost use Rattle.rule_meaning.specs.Values.{has_pattern};

use crate::inputs::Rules;
use doc_values::Doc;
use guard_testfile::Case;
use value_compare::PatternBook;

/// Rules, and the cases that expect verdicts of them; the inputs of the cases stand in the tree.
#[derive(Drop)]
pub struct Tests<'t> {
    pub rules: &'t Rules,
    pub tree: Doc<'t>,
    pub cases: Vec<Case>,
    pub ghost within: { All (λ case. case.input < size tree) cases.items },
    pub ghost plain: { has_pattern tree ≡ false },
}

/// Tests, and the patterns of their rules, which are made.
#[derive(Drop)]
pub struct ReadyTests<'i, 't> {
    pub tests: &'i Tests<'t>,
    pub book: PatternBook,
    pub ghost made: { IsBookOf (file_of tests.now.rules.now.file) book },
}
