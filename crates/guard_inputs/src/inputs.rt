//! The inputs of a judgement: rules, a template and perhaps parameters. They are loaded, then read, and then the patterns of
//! the rules are made.
ghost use Rattle.std.specs.Prelude.{◌≡◌, ◌≤◌, false, length, string_bytes};
ghost use Rattle.std.specs.Option.{ForSome};
ghost use Rattle.doc_values.specs.Limits.{rules_limit, template_limit};
ghost use Rattle.rule_names.specs.code.Files.{file_of};
ghost use Rattle.value_store.specs.code.Books.{IsBookOf};
ghost use Rattle.rule_meaning.specs.Values.{has_pattern};

use doc_values::Doc;
use guard_ends::Format;
use report_text::Texts;
use rule_names::RuleFile;
use value_compare::PatternBook;

/// A rule file that was read, with its text, by which the report and the line of a pattern that is refused tell places.
#[derive(Drop)]
pub struct Rules {
    pub text: String,
    pub file: RuleFile,
    pub ghost short: { length (string_bytes text) ≤ rules_limit },
}

/// The text of a template, of parameters or of tests, with the format in which it is to be read.
#[derive(Drop)]
pub struct DataText {
    pub text: String,
    pub format: Format,
    pub ghost short: { length (string_bytes text) ≤ template_limit },
}

/// Rules that were read, and the text that was loaded beside them: of a template, or of tests.
#[derive(Drop)]
pub struct Sources {
    pub rules: Rules,
    pub beside: DataText,
}

/// Rules and a data tree, which is that of a template or one of a template and parameters; and the texts of all.
#[derive(Drop)]
pub struct Inputs<'t> {
    pub rules: &'t RuleFile,
    pub tree: Doc<'t>,
    pub texts: Texts<'t>,
    pub ghost rules_short: { length texts.rules.now ≤ rules_limit },
    pub ghost template_short: { length texts.template.now ≤ template_limit },
    pub ghost params_short: { ForSome texts.params (λ params. length params.text.now ≤ template_limit) },
    pub ghost plain: { has_pattern tree ≡ false },
}

/// Inputs, and the patterns of their rules, which are made.
#[derive(Drop)]
pub struct Ready<'i, 't> {
    pub inputs: &'i Inputs<'t>,
    pub book: PatternBook,
    pub ghost made: { IsBookOf (file_of inputs.now.rules.now) book },
}
