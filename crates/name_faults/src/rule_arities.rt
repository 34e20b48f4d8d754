//! What a walk over the uses of names has of its file.
ghost use Rattle.std.specs.Prelude.{◌≡◌, IfOk, map};
ghost use Rattle.guard_syntax.specs.code.Seen.{see_file, see_rule};
ghost use Rattle.name_faults.specs.code.Arities.{arity_named, AreArities};
ghost use Rattle.rule_names.specs.Uses.{place_of};

use guard_syntax::{RawFile, Rule};
use std::alloc::{AllocError, Global};
use std::collections::BTreeMap;

/// How many parameters each rule of a file has, by its name, and where the sites of the file begin.
#[derive(Drop)]
pub(crate) struct Walk<'f> {
    pub alloc: Global,
    pub file: &'f RawFile,
    pub arities: BTreeMap<&'f str, usize>,
    pub ghost known: { AreArities (see_file file.now).rules arities },
}

impl<'f> Walk<'f> {
    /// A walk over a file.
    pub fn new(alloc: Global, file: &'f RawFile) -> Result<Walk<'f>, AllocError>
        ensures { IfOk result (λ walk. walk.file.now ≡ file.entry.now) }
    {
        let arities = arities_of(alloc, &file.rules)?;
        Ok(Walk {
            alloc,
            file,
            arities,
        })
    }

    /// How many parameters the rule has that a name means.
    pub fn arity(&self, name: &str) -> Option<usize>
        ensures { result ≡ arity_named (see_file self.now.file.now).rules name.now }
    {
        self.arities.get(name).copied()
    }

    /// The byte offset of a site; 0 where the file has no such site.
    pub fn place(&self, site: u32) -> u32
        ensures { result ≡ place_of (see_file self.now.file.now).rules (see_file self.now.file.now).places site }
    {
        let places = self.file.places.as_slice();
        places.get(site as usize).copied().unwrap_or(0)
    }
}

/// How many parameters rules have, by their names; of several rules with one name, the first counts.
fn arities_of<'f>(alloc: Global, rules: &'f [Rule]) -> Result<BTreeMap<&'f str, usize>, AllocError>
    ensures { IfOk result (λ arities. AreArities (map see_rule rules.entry.now) arities) }
{
    let mut arities = BTreeMap::new(alloc);
    // The first rule of a name comes last, and stays.
    for index in (0..rules.len()).rev() {
        let rule = &rules[index];
        let count = rule.params.as_slice().len();
        arities.insert(rule.name.as_str(), count)?;
    }
    Ok(arities)
}
