//! What the use of a name means.
ghost use Rattle.std.specs.Prelude.{◌≡◌, ◌++◌, IfOk};
ghost use Rattle.rule_names.specs.Resolution.{bind_to, link_rule, link_variable, meant_in};
ghost use Rattle.name_scopes.specs.code.ScopeChains.{scopes_in};
ghost use Rattle.name_resolution.specs.code.Sources.{file_in};
ghost use Rattle.rule_names.specs.Uses.{rule_named};

use crate::resolution::sources::Sources;
use name_scopes::scope_chain::{Meant, ScopeChain, nearest};
use rule_names::{Bind, Binder, Link};
use std::alloc::AllocError;

/// A use, by its site, and what it means.
pub(crate) type Linked = (u32, Link);

/// What a variable means whose name is given so many scopes further out.
fn bind_to(sources: &Sources, meant: Meant) -> Result<Bind, AllocError>
    ensures { IfOk result (λ bind. bind ≡ bind_to (file_in sources.now) meant.up meant.by) }
{
    let up = meant.up;
    match meant.by {
        Binder::Let(site) => Ok(Bind::Value {
            up,
            site: sources.value(site),
        }),
        Binder::Capture(step) => Ok(Bind::Capture { up, step }),
        Binder::Param(index) => match u32::try_from(index) {
            Ok(index) => Ok(Bind::Param { up, index }),
            // No memory holds as many parameters as a `u32` counts.
            Err(_) => Err(AllocError),
        },
    }
}

/// Adds what the use of a variable means.
pub(crate) fn link_variable(
    sources: &Sources,
    site: u32,
    name: &str,
    chain: &ScopeChain,
    links: &mut Vec<Linked>,
) -> Result<(), AllocError>
    ensures { IfOk result (λ _. links.new.items ≡ links.old.items ++ link_variable (file_in sources.now) site (meant_in (scopes_in chain.now) name.now)) }
{
    if let Some(meant) = nearest(chain, name)? {
        let bind = bind_to(sources, meant)?;
        links.push((site, Link::Variable(bind)))?;
    }
    Ok(())
}

/// Adds what a reference or a call means.
pub(crate) fn link_rule(
    sources: &Sources,
    site: u32,
    name: &str,
    links: &mut Vec<Linked>,
) -> Result<(), AllocError>
    ensures { IfOk result (λ _. links.new.items ≡ links.old.items ++ link_rule (file_in sources.now) site (rule_named (file_in sources.now).rules name.now)) }
{
    if let Some(rule) = sources.rule(name) {
        links.push((site, Link::Rule(rule)))?;
    }
    Ok(())
}
