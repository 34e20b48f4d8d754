//! The verdicts of rules, by the names under which they are reported.
ghost use Rattle.std.specs.Prelude.{◌≡◌, ◌++◌, IfOk, length, map};
ghost use Rattle.std.specs.List.{flat_map};
ghost use Rattle.guard_syntax.specs.code.Seen.{disj_list, see_disj, see_rule};
ghost use Rattle.report_text.specs.RuleLines.{name_of_loose, name_of_rule, reported_names};
ghost use Rattle.rule_names.specs.code.Files.{file_of};
ghost use Rattle.guard_testfile.specs.Texts.{verdict_under};
ghost use Rattle.guard_testfile.specs.code.Written.{AreVerdicts};

use guard_syntax::{Disj, Rule, Verdict};
use rule_names::RuleFile;
use std::alloc::{AllocError, Global};
use std::collections::BTreeMap;

/// The verdicts of the rules of a file that are reported, in the order of the report, and by their names.
#[derive(Drop)]
pub(crate) struct Verdicts<'f> {
    pub file: &'f RuleFile,
    pub listed: &'f [Verdict],
    pub by_name: BTreeMap<&'f str, Verdict>,
    pub ghost known: { AreVerdicts (reported_names (file_of file.now)) listed.now by_name },
}

impl<'f> Verdicts<'f> {
    /// These verdicts, one for each rule.
    pub fn new(
        alloc: Global,
        file: &'f RuleFile,
        listed: &'f [Verdict],
    ) -> Result<Verdicts<'f>, AllocError>
        requires { length listed.now ≡ length (reported_names (file_of file.now)) }
        ensures file { IfOk result (λ verdicts. verdicts.file.now ≡ file.entry.now) }
        ensures listed { IfOk result (λ verdicts. verdicts.listed.now ≡ listed.entry.now) }
    {
        let raw = file.raw();
        let by_name = verdicts_of(alloc, &raw.rules, &raw.loose, listed)?;
        Ok(Verdicts {
            file,
            listed,
            by_name,
        })
    }

    /// The verdict of the rule with a name.
    pub fn under(&self, name: &str) -> Option<Verdict>
        ensures { result ≡ verdict_under (reported_names (file_of self.now.file.now)) self.now.listed.now name.now }
    {
        self.by_name.get(name).copied()
    }
}

/// The verdicts of these rules and of the parts outside, by their names; there is one for each that is reported. Of several
/// with one name, the first counts.
fn verdicts_of<'f>(
    alloc: Global,
    rules: &'f [Rule],
    loose: &'f [Disj],
    verdicts: &[Verdict],
) -> Result<BTreeMap<&'f str, Verdict>, AllocError>
    requires { length verdicts.now
        ≡ length (flat_map name_of_rule (map see_rule rules.now) ++ name_of_loose (disj_list (map see_disj loose.now))) }
    ensures { IfOk result (λ by_name. AreVerdicts
        (flat_map name_of_rule (map see_rule rules.entry.now) ++ name_of_loose (disj_list (map see_disj loose.entry.now))) verdicts.now by_name) }
{
    let mut left = verdicts.len() - count_of(loose);
    let mut by_name = default_alone(alloc, loose, &verdicts[left..])?;
    // The first rule of a name comes last, and stays.
    for index in (0..rules.len()).rev() {
        let rule = &rules[index];
        if !rule.params.as_slice().is_empty() {
            continue;
        }
        left -= 1;
        by_name.insert(rule.name.as_str(), verdicts[left])?;
    }
    Ok(by_name)
}

/// How many names the parts outside rules have: one, where there are some.
fn count_of(loose: &[Disj]) -> usize
    ensures { result ≡ length (name_of_loose (disj_list (map see_disj loose.now))) }
{
    if loose.is_empty() {
        return 0;
    }
    1
}

/// The verdict of the parts outside rules under its name, where there are some.
fn default_alone<'f>(
    alloc: Global,
    loose: &'f [Disj],
    verdicts: &[Verdict],
) -> Result<BTreeMap<&'f str, Verdict>, AllocError>
    requires { length verdicts.now ≡ length (name_of_loose (disj_list (map see_disj loose.now))) }
    ensures { IfOk result (λ by_name. AreVerdicts (name_of_loose (disj_list (map see_disj loose.entry.now))) verdicts.now by_name) }
{
    let mut by_name = BTreeMap::new(alloc);
    if loose.is_empty() {
        return Ok(by_name);
    }
    by_name.insert("default", verdicts[0])?;
    Ok(by_name)
}
