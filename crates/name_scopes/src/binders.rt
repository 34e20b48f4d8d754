//! What gives each name of a scope.
ghost use Rattle.std.specs.Prelude.{◌≡◌, IfOk};
ghost use Rattle.name_scopes.specs.code.Binders.{AreBinders, binder_named};
ghost use Rattle.name_scopes.specs.code.Seen.{see_given};

use crate::scopes::Given;
use rule_names::Binder;
use std::alloc::{AllocError, Global};
use std::collections::BTreeMap;

/// The names of a scope, and what gives each; of several with one text, the first counts.
#[derive(Drop)]
pub struct Binders<'f> {
    pub names: Vec<Given<'f>>,
    pub by_text: BTreeMap<&'f str, Binder>,
    pub ghost known: { AreBinders (see_given names.items) by_text },
}

impl<'f> Binders<'f> {
    /// These names.
    pub fn new(alloc: Global, names: Vec<Given<'f>>) -> Result<Binders<'f>, AllocError>
        ensures { IfOk result (λ own. own.names ≡ names.entry) }
    {
        let by_text = binders_of(alloc, &names)?;
        Ok(Binders { names, by_text })
    }

    /// What gives a name, if the scope has it.
    pub fn binder(&self, name: &str) -> Option<Binder>
        ensures { result ≡ binder_named (see_given self.now.names.items) name.now }
    {
        self.by_text.get(name).copied()
    }
}

/// What gives each of some names.
fn binders_of<'f>(
    alloc: Global,
    names: &[Given<'f>],
) -> Result<BTreeMap<&'f str, Binder>, AllocError>
    ensures { IfOk result (λ binders. AreBinders (see_given names.now) binders) }
{
    let mut binders = BTreeMap::new(alloc);
    // The first of a text comes last, and stays.
    for index in (0..names.len()).rev() {
        let given = names[index];
        binders.insert(given.name.as_str(), given.by)?;
    }
    Ok(binders)
}
