//! Rules that a template meets.
ghost use Rattle.std.specs.Prelude.{◌≡◌, ◌++◌, ◌∷◌, ◌+◌, ◌^◌, ◌<◌, ◌≤◌, [], List, IfOk, IsErrOf, filter, length, string_bytes};
ghost use Rattle.doc_values.specs.Limits.{rules_limit};
ghost use Rattle.rule_generator.specs.GeneratedRules.{TypeRule, generated, has_keys, rules_text};
ghost use Rattle.rule_generator.specs.code.Groups.{group_rule, grouped_text};
ghost use Rattle.rule_generator.specs.code.Seen.{values_seen};
ghost use Rattle.rule_generator.specs.code.SeenGroups.{see_groups};

use crate::element::elements;
use crate::group::Groups;
use crate::kept::kept_keys;
use crate::refusal::GenerateRefusal;
use crate::write::push_rule;
use doc_values::{Cursor, Doc, RULES_LIMIT};
use std::alloc::{AllocError, Global};

/// The rules that a template meets, as a text. `TooLong` comes exactly where the text has more bytes than rules may have.
pub fn generate(alloc: Global, doc: &Doc<'_>) -> Result<String, GenerateRefusal>
    ensures text { IfOk result (λ text. string_bytes text ≡ generated doc.now) }
    ensures within { IfOk result (λ text. length (generated doc.now) ≤ rules_limit) }
    ensures too_long { IsErrOf result GenerateRefusal.TooLong → rules_limit < length (generated doc.now) }
{
    let all = elements(alloc, doc)?;
    let groups = Groups::of(alloc, &all)?;
    rules_of(alloc, &groups)
}

/// The rules of groups of elements.
fn rules_of(alloc: Global, groups: &Groups<'_, '_>) -> Result<String, GenerateRefusal>
    requires { length groups.now.types.keys ≡ length groups.now.members.items }
    ensures text { IfOk result (λ text. string_bytes text ≡ grouped_text (see_groups groups.now)) }
    ensures within { IfOk result (λ text. length (grouped_text (see_groups groups.now)) ≤ rules_limit) }
    ensures too_long { IsErrOf result GenerateRefusal.TooLong → rules_limit < length (grouped_text (see_groups groups.now)) }
{
    let names = groups.types.as_slice();
    let mut out = String::new(alloc);
    let mut number = 1;
    for i in 0..names.len() {
        number = push_group(alloc, &mut out, number, names[i], &groups.members[i])?;
        if RULES_LIMIT < out.len() {
            return Err(GenerateRefusal::TooLong);
        }
    }
    Ok(out)
}

/// Appends the rule of the elements of a type, if a key is kept for them, and answers the number of the next one.
fn push_group(
    alloc: Global,
    out: &mut String,
    number: u64,
    name: &str,
    members: &[Cursor<'_, '_>],
) -> Result<u64, AllocError>
    requires { number < 2 ^ 63 }
    ensures text { (rest : List TypeRule) → IfOk result (λ next. string_bytes out.new ++ rules_text next rest
        ≡ string_bytes out.old ++ rules_text number (filter has_keys (group_rule name.now (values_seen members.now) ∷ []) ++ rest)) }
    ensures next { IfOk result (λ next. next ≤ number + 1) }
{
    let keys = kept_keys(alloc, members)?;
    if keys.is_empty() {
        return Ok(number);
    }
    push_rule(out, number, name, &keys)?;
    Ok(number + 1)
}
