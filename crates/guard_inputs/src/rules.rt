//! Rules: they are loaded, and read as tokens, syntax and names.
ghost use Rattle.std.specs.Prelude.{◌≡◌, ◌≤◌, ℕ, List, MatchResult, length, string_bytes};
ghost use Rattle.doc_values.specs.Limits.{rules_limit};
ghost use Rattle.guard_syntax.specs.code.Seen.{see_file};
ghost use Rattle.rule_names.specs.code.Files.{file_of};
ghost use Rattle.guard_ends.specs.Inputs.{IsSyntax, IsRuleFile, RefusesRules};
ghost use Rattle.guard_ends.specs.Order.{IsContent};
ghost use Rattle.guard_inputs.specs.code.Loading.{IsNotLoaded};
ghost use Rattle.guard_inputs.specs.code.Stops.{IsNotRead};

use crate::inputs::Rules;
use crate::load::load_text;
use crate::refused::refused_name;
use crate::stop::Stop;
use crate::syntax::syntax_of;
use guard_ends::Which;
use guard_io::Files;
use guard_parser::{queries_begin, sites_in_order};
use guard_syntax::RawFile;
use name_table::{NameRefusal, resolve};
use rule_names::RuleFile;
use std::alloc::Global;

/// Loads and reads a rule file.
pub(crate) fn load_rules<F: Files>(alloc: Global, name: &str, files: &mut F) -> Result<Rules, Stop>
    ensures loaded { MatchResult result
        (λ rules. IsContent (F.content files.old name.now) (string_bytes rules.text) × IsRuleFile (string_bytes rules.text) (file_of rules.file))
        (IsNotLoaded Which.Rules (F.content files.old) name.now RefusesRules (F.faults files.old) (F.faults files.new)) }
    ensures contents { (other : List ℕ) → F.content files.new other ≡ F.content files.old other }
    ensures kept { (other : List ℕ) → F.faults files.old other ≤ F.faults files.new other }
{
    let text = load_text(alloc, Which::Rules, name, files)?;
    read_rules(alloc, text)
}

/// Reads the text of a rule file, which is no longer than rules may be.
pub fn read_rules(alloc: Global, text: String) -> Result<Rules, Stop>
    requires { length (string_bytes text) ≤ rules_limit }
    ensures { MatchResult result (λ rules. (string_bytes rules.text ≡ string_bytes text) × IsRuleFile (string_bytes text) (file_of rules.file))
        (IsNotRead RefusesRules (string_bytes text)) }
{
    let file = rules_of(alloc, text.as_str())?;
    Ok(Rules { text, file })
}

/// The rules of a text, which is no longer than rules may be.
fn rules_of(alloc: Global, text: &str) -> Result<RuleFile, Stop>
    requires { length text.now ≤ rules_limit }
    ensures { MatchResult result (λ rules. IsRuleFile text.now (file_of rules)) (IsNotRead RefusesRules text.now) }
{
    let raw = syntax_of(alloc, text)?;
    rules_of_syntax(alloc, text, raw)
}

/// The rules of the syntax of a text.
fn rules_of_syntax(alloc: Global, text: &str, raw: RawFile) -> Result<RuleFile, Stop>
    requires short { length text.now ≤ rules_limit }
    requires syntax { IsSyntax text.now (see_file raw) }
    ensures { MatchResult result (λ rules. IsRuleFile text.now (file_of rules)) (IsNotRead RefusesRules text.now) }
{
    sites_in_order();
    queries_begin();
    match resolve(alloc, raw) {
        Ok(rules) => Ok(rules),
        Err(NameRefusal::Bad { kind, name, at }) => {
            match refused_name(alloc, kind, name, at, text.as_bytes()) {
                Ok(refused) => Err(Stop::Refused(refused)),
                Err(_) => Err(Stop::Memory),
            }
        }
        Err(NameRefusal::NoMemory) => Err(Stop::Memory),
    }
}
