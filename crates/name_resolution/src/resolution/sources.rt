//! What a walk over the uses of names has to know of the whole file.
ghost use Rattle.std.specs.Prelude.{◌≡◌, IfOk};
ghost use Rattle.guard_syntax.specs.code.Seen.{see_file};
ghost use Rattle.rule_names.specs.Resolution.{value_in};
ghost use Rattle.rule_names.specs.Pieces.{piece_at, AreInOrder};
ghost use Rattle.name_scopes.specs.code.RuleSites.{AreRuleSites, site_named};

use guard_syntax::RawFile;
use name_scopes::rule_sites::sites_of;
use rule_names::Piece;
use rule_names::find::in_file;
use rule_names::siblings::HasSite;
use std::alloc::{AllocError, Global};
use std::collections::BTreeMap;

/// A file, and the site of each of its rules by its name.
#[derive(Drop)]
pub(crate) struct Sources<'f> {
    pub alloc: Global,
    pub file: &'f RawFile,
    pub rules: BTreeMap<&'f str, u32>,
    pub ghost sites: { AreInOrder (see_file file.now) },
    pub ghost known: { AreRuleSites (see_file file.now).rules rules },
}

impl<'f> Sources<'f> {
    /// The sources of a file.
    pub fn new(alloc: Global, file: &'f RawFile) -> Result<Sources<'f>, AllocError>
        requires { AreInOrder (see_file file.now) }
        ensures { IfOk result (λ sources. sources.file.now ≡ file.entry.now) }
    {
        let rules = sites_of(alloc, &file.rules)?;
        Ok(Sources { alloc, file, rules })
    }

    /// The site of the rule that a name means.
    pub fn rule(&self, name: &str) -> Option<u32>
        ensures { result ≡ site_named (see_file self.now.file.now).rules name.now }
    {
        self.rules.get(name).copied()
    }

    /// The site of the expression of the let of a site; 0 where no let has the site.
    pub fn value(&self, site: u32) -> u32
        ensures { result ≡ value_in (piece_at (see_file self.now.file.now) site) }
    {
        match in_file(self.file, site) {
            Some(Piece::Let(given)) => given.value.site(),
            _ => 0,
        }
    }
}
