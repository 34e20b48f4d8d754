//! Uses of names, each by itself: variables, references to rules, and calls of rules and of functions.
ghost use Rattle.std.specs.Prelude.{◌≡◌, Some, [], map};
ghost use Rattle.guard_syntax.specs.code.Seen.{expr_list, see_expr};
ghost use Rattle.rule_names.specs.Faults.{earlier, first_from};
ghost use Rattle.rule_names.specs.Scopes.{given_named};
ghost use Rattle.name_scopes.specs.code.Seen.{see_best};
ghost use Rattle.rule_names.specs.Uses.{arity, count_exprs, expr_in, expr_site, function_named, is_text, place_of, rule_named, wrong_call, wrong_function, wrong_refer, wrong_text, wrong_texts, wrong_variable, is_text_tree};
ghost use Rattle.name_scopes.specs.code.ScopeChains.{visible_in};
ghost use Rattle.name_faults.specs.code.RuleArities.{rules_of, places_of};

use crate::rule_arities::Walk;
use doc_values::{Doc, Kind};
use guard_syntax::{Expr, Function, Text};
use name_scopes::fault::{Wrong, earlier};
use name_scopes::scope_chain::{ScopeChain, binder};
use rule_names::NameKind;
use rule_names::siblings::HasSite;

/// The first of the faults until now and one more.
fn with_fault<'f>(
    best: Option<Wrong<'f>>,
    kind: NameKind,
    name: &'f Text,
    at: u32,
) -> Option<Wrong<'f>>
    ensures { see_best result ≡ Some (earlier (see_best best.entry) (record { kind = kind; named = record { text = name.entry.now; at = at } })) }
{
    let name = name.as_str();
    Some(earlier(best, Wrong { kind, name, at }))
}

/// A variable: some scope around its use has it. The file's rules and the places of its sites have no part in that.
pub(crate) fn wrong_variable<'f>(
    scope: &ScopeChain<'f, '_>,
    name: &'f str,
    at: u32,
    best: Option<Wrong<'f>>,
) -> Option<Wrong<'f>>
    ensures { see_best result ≡ first_from (see_best best.entry) (wrong_variable [] [] (given_named (visible_in scope.now) name.entry.now) name.entry.now at) }
{
    let kind = NameKind::UnknownVariable;
    match binder(scope, name) {
        Some(_) => best,
        None => Some(earlier(best, Wrong { kind, name, at })),
    }
}

/// A reference: it names a rule without parameters.
pub(crate) fn wrong_reference<'f>(
    walk: &Walk<'f>,
    name: &'f Text,
    site: u32,
    best: Option<Wrong<'f>>,
) -> Option<Wrong<'f>>
    ensures { see_best result ≡ first_from (see_best best.entry) (wrong_refer (rules_of walk.now) (places_of walk.now) (rule_named (rules_of walk.now) name.entry.now) name.entry.now (place_of (rules_of walk.now) (places_of walk.now) site)) }
{
    let at = walk.place(site);
    match walk.arity(name.as_str()) {
        None => with_fault(best, NameKind::UnknownRule, name, at),
        Some(0) => best,
        Some(_) => with_fault(best, NameKind::NeedsArguments, name, at),
    }
}

/// A call of a rule: it names one with as many parameters as it has arguments.
pub(crate) fn wrong_call<'f>(
    walk: &Walk<'f>,
    name: &'f Text,
    args: &'f [Expr],
    site: u32,
    best: Option<Wrong<'f>>,
) -> Option<Wrong<'f>>
    ensures { see_best result ≡ first_from (see_best best.entry) (wrong_call (rules_of walk.now) (places_of walk.now) (rule_named (rules_of walk.now) name.entry.now) (count_exprs (expr_list (map see_expr args.entry.now))) name.entry.now (place_of (rules_of walk.now) (places_of walk.now) site)) }
{
    let at = walk.place(site);
    match walk.arity(name.as_str()) {
        None => with_fault(best, NameKind::UnknownRule, name, at),
        Some(0) => with_fault(best, NameKind::TakesNone, name, at),
        Some(count) => {
            if count == args.len() {
                best
            } else {
                with_fault(best, NameKind::ArgCount, name, at)
            }
        }
    }
}

/// A call of a function: it names one that takes as many arguments, literal texts where it wants them.
pub(crate) fn wrong_function<'f>(
    walk: &Walk<'f>,
    name: &'f Text,
    args: &'f [Expr],
    site: u32,
    best: Option<Wrong<'f>>,
) -> Option<Wrong<'f>>
    ensures { see_best result ≡ first_from (see_best best.entry) (wrong_function (rules_of walk.now) (places_of walk.now) (function_named name.entry.now) name.entry.now (expr_list (map see_expr args.entry.now)) (place_of (rules_of walk.now) (places_of walk.now) site)) }
{
    let at = walk.place(site);
    let Some(function) = Function::named(name.as_str()) else {
        return with_fault(best, NameKind::UnknownFunction, name, at);
    };
    if arity(function) == args.len() {
        return wrong_texts(walk, function, name, args, best);
    }
    let best = with_fault(best, NameKind::ArgCount, name, at);
    wrong_texts(walk, function, name, args, best)
}

/// How many arguments a function takes.
fn arity(function: Function) -> usize
    ensures { result ≡ arity function }
{
    match function {
        Function::Count => 1,
        Function::JsonParse => 1,
        Function::RegexReplace => 3,
        Function::Join => 2,
        Function::ToLower => 1,
        Function::ToUpper => 1,
        Function::Substring => 3,
        Function::UrlDecode => 1,
        Function::ParseInt => 1,
        Function::ParseFloat => 1,
        Function::ParseBoolean => 1,
        Function::ParseString => 1,
    }
}

/// The arguments of a function that must be literal texts.
fn wrong_texts<'f>(
    walk: &Walk<'f>,
    function: Function,
    name: &'f Text,
    args: &'f [Expr],
    best: Option<Wrong<'f>>,
) -> Option<Wrong<'f>>
    ensures { see_best result ≡ first_from (see_best best.entry) (wrong_texts (rules_of walk.now) (places_of walk.now) function name.entry.now (expr_list (map see_expr args.entry.now))) }
{
    match function {
        Function::RegexReplace => {
            let best = wrong_text(walk, name, args, 1, best);
            wrong_text(walk, name, args, 2, best)
        }
        _ => best,
    }
}

/// The argument at an index, which must be a literal text if it is there.
fn wrong_text<'f>(
    walk: &Walk<'f>,
    name: &'f Text,
    args: &'f [Expr],
    index: usize,
    best: Option<Wrong<'f>>,
) -> Option<Wrong<'f>>
    ensures { see_best result ≡ first_from (see_best best.entry) (wrong_text (rules_of walk.now) (places_of walk.now) name.entry.now (expr_in (expr_list (map see_expr args.entry.now)) index)) }
{
    let Some(argument) = args.get(index) else {
        return best;
    };
    if is_text(argument) {
        return best;
    }
    let at = walk.place(argument.site());
    with_fault(best, NameKind::LiteralWanted, name, at)
}

/// Whether an expression is a literal text. A pattern is none.
fn is_text(expr: &Expr) -> bool
    ensures { result ≡ is_text (see_expr expr.now) }
{
    match expr {
        Expr::Literal { tree, .. } => is_text_tree(tree),
        Expr::Function { .. } => false,
        Expr::Query(_) => false,
        Expr::Found { .. } => false,
    }
}

/// Whether a value is a text.
fn is_text_tree(tree: &Doc) -> bool
    ensures { result ≡ is_text_tree tree.now }
{
    // A tree has a root, as `len` says.
    let _nodes = tree.len();
    match tree.cursor(0).kind() {
        Kind::Text => true,
        _ => false,
    }
}
