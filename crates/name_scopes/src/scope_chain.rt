//! What names mean where scopes stand in one another: the innermost scope that has a name says it.
ghost use Rattle.std.specs.Prelude.{◌≡◌, ◌++◌, ◌∷◌, [], IfOk, Some, option_map};
ghost use Rattle.name_scopes.specs.code.Binders.{binder_named};
ghost use Rattle.rule_names.specs.Resolution.{meant_in, one_out};
ghost use Rattle.name_scopes.specs.code.ScopeChains.{scopes_in, see_meant, visible_in};
ghost use Rattle.name_scopes.specs.code.Seen.{see_given};

use crate::binders::Binders;
use rule_names::Binder;
use std::alloc::AllocError;

/// A scope, with the scopes around it.
#[derive(Drop)]
pub struct ScopeChain<'f, 'o> {
    own: &'o Binders<'f>,
    outer: Option<&'o ScopeChain<'f, 'o>>,
}

impl<'f, 'o> ScopeChain<'f, 'o> {
    /// The scope of a file, around which there is none.
    pub fn outermost(own: &'o Binders<'f>) -> ScopeChain<'f, 'o>
        ensures visible { visible_in result ≡ see_given own.now.names.items }
        ensures scopes { scopes_in result ≡ see_given own.now.names.items ∷ [] }
    {
        ScopeChain { own, outer: None }
    }

    /// The scope with these names inside another.
    pub fn inside(own: &'o Binders<'f>, outer: &'o ScopeChain<'f, 'o>) -> ScopeChain<'f, 'o>
        ensures visible { visible_in result ≡ see_given own.now.names.items ++ visible_in outer.now }
        ensures scopes { scopes_in result ≡ see_given own.now.names.items ∷ scopes_in outer.now }
    {
        ScopeChain {
            own,
            outer: Some(outer),
        }
    }
}

/// What gives a name, and how many scopes further out than the innermost.
#[derive(Clone, Copy)]
pub struct Meant {
    pub up: u32,
    pub by: Binder,
}

/// What gives a name where a scope and those around it are visible.
pub fn binder(chain: &ScopeChain, name: &str) -> Option<Binder>
    ensures { result ≡ binder_named (visible_in chain.now) name.now }
{
    match chain.own.binder(name) {
        Some(binder) => Some(binder),
        None => match chain.outer {
            Some(outer) => binder(outer, name),
            None => None,
        },
    }
}

/// What gives a name in the nearest scope that has it.
pub fn nearest(chain: &ScopeChain, name: &str) -> Result<Option<Meant>, AllocError>
    ensures { IfOk result (λ found. option_map see_meant found ≡ meant_in (scopes_in chain.now) name.now) }
{
    if let Some(by) = chain.own.binder(name) {
        return Ok(Some(Meant { up: 0, by }));
    }
    let Some(outer) = chain.outer else {
        return Ok(None);
    };
    match nearest(outer, name)? {
        Some(found) => further(found),
        None => Ok(None),
    }
}

/// The same, seen from one scope further in.
fn further(found: Meant) -> Result<Option<Meant>, AllocError>
    ensures { IfOk result (λ seen. option_map see_meant seen ≡ Some (one_out (see_meant found))) }
{
    // No memory holds as many scopes in one another as a `u32` counts.
    match found.up.checked_add(1) {
        Some(up) => Ok(Some(Meant { up, by: found.by })),
        None => Err(AllocError),
    }
}
