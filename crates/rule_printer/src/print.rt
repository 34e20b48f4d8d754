//! Rules and files.
ghost use Rattle.std.specs.Prelude.{◌≡◌, ◌++◌, ◌∷◌, ℕ, List, [], IfOk, OnOk, string_bytes};
ghost use Rattle.guard_syntax.specs.code.Seen.{see_file, see_rule};
ghost use Rattle.rule_printer.specs.RuleText.{in_a_row, merged, rule_line, rule_text};
ghost use Rattle.rule_printer.specs.code.Printing.{lets_from, rules_from};

use crate::blocks::{push_body, push_disj, push_when};
use crate::lets::{push_lets, push_lets_before};
use guard_syntax::{RawFile, Rule};
use rule_words::names::push_params;
use rule_words::words::push_signed;
use std::alloc::{AllocError, Global};

/// The first let and the first rule of a file that are not appended yet.
#[derive(Clone, Copy)]
struct Next {
    at_let: usize,
    at_rule: usize,
}

/// Appends the lines of a rule.
fn push_rule(alloc: Global, out: &mut String, rule: &Rule) -> Result<(), AllocError>
    ensures { OnOk result (string_bytes out.new ≡ string_bytes out.old ++ (rule_line (see_rule rule.now)).1) }
{
    push_signed(out, "rule ", rule.name.as_str())?;
    push_params(out, rule.params.as_slice())?;
    push_when(out, &rule.cond)?;
    push_body(alloc, out, "", &rule.body)?;
    out.push_str("\n")
}

/// Appends the lines of the lets and rules that stand before a site.
fn push_before(
    alloc: Global,
    out: &mut String,
    file: &RawFile,
    from: Next,
    site: u32,
) -> Result<Next, AllocError>
    ensures { IfOk result (λ next. (text : List ℕ) (others : List (ℕ × List ℕ)) →
        string_bytes out.new ++ in_a_row ((site, text) ∷ merged (lets_from [] file.now.lets.items next.at_let) (merged (rules_from file.now.rules.items next.at_rule) others))
        ≡ string_bytes out.old ++ in_a_row (merged (lets_from [] file.now.lets.items from.at_let) (merged (rules_from file.now.rules.items from.at_rule) ((site, text) ∷ others)))) }
{
    let lets = file.lets.as_slice();
    let rules = file.rules.as_slice();
    let mut at_let = from.at_let;
    for at_rule in from.at_rule..rules.len() {
        let rule = &rules[at_rule];
        if site < rule.site {
            at_let = push_lets_before(out, "", lets, at_let, site)?;
            return Ok(Next { at_let, at_rule });
        }
        at_let = push_lets_before(out, "", lets, at_let, rule.site)?;
        push_rule(alloc, out, rule)?;
    }
    at_let = push_lets_before(out, "", lets, at_let, site)?;
    Ok(Next {
        at_let,
        at_rule: rules.len(),
    })
}

/// Appends the lines of the lets and rules that are left.
fn push_left(alloc: Global, out: &mut String, file: &RawFile, from: Next) -> Result<(), AllocError>
    ensures { OnOk result (string_bytes out.new ≡ string_bytes out.old ++ in_a_row (merged (lets_from [] file.now.lets.items from.at_let) (rules_from file.now.rules.items from.at_rule))) }
{
    let lets = file.lets.as_slice();
    let rules = file.rules.as_slice();
    let mut at_let = from.at_let;
    for at_rule in from.at_rule..rules.len() {
        let rule = &rules[at_rule];
        at_let = push_lets_before(out, "", lets, at_let, rule.site)?;
        push_rule(alloc, out, rule)?;
    }
    push_lets(out, "", lets, at_let)
}

/// Appends the lines of a file.
fn push_file(alloc: Global, out: &mut String, file: &RawFile) -> Result<(), AllocError>
    ensures { OnOk result (string_bytes out.new ≡ string_bytes out.old ++ rule_text (see_file file.now)) }
{
    let disjs = file.loose.as_slice();
    let mut next = Next {
        at_let: 0,
        at_rule: 0,
    };
    for disj in disjs {
        next = push_before(alloc, out, file, next, disj.site)?;
        push_disj(alloc, out, "", disj)?;
    }
    push_left(alloc, out, file, next)
}

/// The canonical text of a rule file.
pub fn print_rules(alloc: Global, file: &RawFile) -> Result<String, AllocError>
    ensures { IfOk result (λ text. string_bytes text ≡ rule_text (see_file file.now)) }
{
    let mut text = String::new(alloc);
    push_file(alloc, &mut text, file)?;
    Ok(text)
}
