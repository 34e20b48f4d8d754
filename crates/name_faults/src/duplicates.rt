//! Names that are given twice: those of a scope, and those of the rules of a file.
ghost use Rattle.std.specs.Prelude.{◌≡◌, IfOk, None, [], ◌∷◌, map};
ghost use Rattle.guard_syntax.specs.code.Seen.{see_rule};
ghost use Rattle.rule_names.specs.declared.name_kind.NameKind.TheVariants.{DuplicateRule};
ghost use Rattle.rule_names.specs.Duplicates.{duplicated, fault_of, given_again, rule_names};
ghost use Rattle.rule_names.specs.Faults.{first_from};
ghost use Rattle.rule_names.specs.Scopes.{names_of};
ghost use Rattle.name_faults.specs.code.Found.{see_found, found_from};
ghost use Rattle.name_scopes.specs.code.Seen.{see_best, see_given, see_names};

use crate::found::Found;
use guard_syntax::{Name, Rule};
use name_scopes::binders::Binders;
use name_scopes::fault::{Wrong, earlier};
use name_scopes::scopes::Given;
use rule_names::NameKind;
use std::alloc::{AllocError, Global};
use std::collections::BTreeSet;

/// The first name that was given before, among those of a list.
fn first_again<'f>(
    alloc: Global,
    kind: NameKind,
    names: &[&'f Name],
    best: Option<Wrong<'f>>,
) -> Result<Option<Wrong<'f>>, AllocError>
    ensures { IfOk result (λ found. see_best found ≡ first_from (see_best best.entry) (map (fault_of kind) (given_again [] (see_names names.now)))) }
{
    let mut best = best;
    let mut seen = BTreeSet::new(alloc);
    for name in names {
        let is_new = seen.insert(name.as_str())?;
        if is_new {
            continue;
        }
        let wrong = Wrong {
            kind,
            name: name.as_str(),
            at: name.at(),
        };
        best = Some(earlier(best, wrong));
    }
    Ok(best)
}

/// The names themselves, without what gives them.
fn names_of<'f>(alloc: Global, given: &[Given<'f>]) -> Result<Vec<&'f Name>, AllocError>
    ensures { IfOk result (λ names. see_names names.items ≡ names_of (see_given given.now)) }
{
    let mut names: Vec<&'f Name> = Vec::new(alloc);
    for one in given {
        names.push(one.name)?;
    }
    Ok(names)
}

/// The first duplicate among the names of one scope.
fn in_scope<'f>(
    alloc: Global,
    given: &[Given<'f>],
    best: Option<Wrong<'f>>,
) -> Result<Option<Wrong<'f>>, AllocError>
    ensures { IfOk result (λ found. see_best found ≡ first_from (see_best best.entry) (duplicated (names_of (see_given given.now) ∷ []))) }
{
    let names = names_of(alloc, given)?;
    first_again(alloc, NameKind::DuplicateName, &names, best)
}

/// What gives each name of a scope, and the first of the faults until now and those of names that it has twice.
pub(crate) fn enter<'f>(
    alloc: Global,
    names: Vec<Given<'f>>,
    best: Found<'f>,
) -> Result<(Binders<'f>, Found<'f>), AllocError>
    ensures { IfOk result (λ entered. (entered.0.names ≡ names.entry) × (see_found entered.1 ≡ found_from (see_found best.entry) (names_of (see_given names.entry.items) ∷ []) [])) }
{
    let again = in_scope(alloc, &names, best.again)?;
    let own = Binders::new(alloc, names)?;
    let wrong = best.wrong;
    Ok((own, Found { again, wrong }))
}

/// The names of rules.
fn rule_names<'f>(alloc: Global, rules: &'f [Rule]) -> Result<Vec<&'f Name>, AllocError>
    ensures { IfOk result (λ names. see_names names.items ≡ rule_names (map see_rule rules.entry.now)) }
{
    let mut names: Vec<&'f Name> = Vec::new(alloc);
    for rule in rules {
        names.push(&rule.name)?;
    }
    Ok(names)
}

/// The first rule of a name that a rule has already.
pub(crate) fn duplicate_rule<'f>(
    alloc: Global,
    rules: &'f [Rule],
) -> Result<Option<Wrong<'f>>, AllocError>
    ensures { IfOk result (λ found. see_best found ≡ first_from None (map (fault_of DuplicateRule) (given_again [] (rule_names (map see_rule rules.entry.now))))) }
{
    let names = rule_names(alloc, rules)?;
    first_again(alloc, NameKind::DuplicateRule, &names, None)
}
