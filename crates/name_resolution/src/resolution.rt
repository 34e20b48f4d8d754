//! What the uses of names in a file mean, by their sites. They are gathered in the order in which their parts stand, and
//! then set into a table.
ghost use Rattle.std.specs.Prelude.{◌≡◌, ◌++◌, IfOk, None, length, replicate};
ghost use Rattle.guard_syntax.specs.code.Seen.{see_file};
ghost use Rattle.rule_names.specs.Resolution.{links_in, resolution_of, with_link, with_links};
ghost use Rattle.rule_names.specs.Pieces.{AreInOrder};
ghost use Rattle.rule_names.specs.Scopes.{given_file};
ghost use Rattle.name_scopes.specs.code.Seen.{see_given};
ghost use Rattle.name_resolution.specs.code.Sources.{file_in};

mod sources;
mod uses;
mod walk;

use guard_syntax::RawFile;
use name_scopes::binders::Binders;
use name_scopes::scope_chain::ScopeChain;
use name_scopes::scopes::file_names;
use rule_names::Link;
use sources::Sources;
use std::alloc::{AllocError, Global};
use uses::Linked;
use walk::in_file;

/// The uses in a file, each with what it means, in the order in which their parts stand.
fn links_in(alloc: Global, file: &RawFile) -> Result<Vec<Linked>, AllocError>
    requires sites { AreInOrder (see_file file.now) }
    ensures { IfOk result (λ links. links.items ≡ links_in (see_file file.now)) }
{
    let sources = Sources::new(alloc, file)?;
    let own = Binders::new(alloc, file_names(alloc, file)?)?;
    links_among(&sources, &own)
}

/// The same, where the names of the file are known.
fn links_among<'f>(sources: &Sources<'f>, own: &Binders<'f>) -> Result<Vec<Linked>, AllocError>
    requires { see_given own.now.names.items ≡ given_file (file_in sources.now) }
    ensures { IfOk result (λ links. links.items ≡ links_in (file_in sources.now)) }
{
    let chain = ScopeChain::outermost(own);
    let mut links: Vec<Linked> = Vec::new(sources.alloc);
    in_file(sources, &chain, &mut links)?;
    Ok(links)
}

/// Sets what a use means at its site, where the table has the site.
fn set_link(table: &mut Vec<Option<Link>>, linked: Linked)
    ensures { table.new.items ≡ with_link table.old.items linked }
{
    let (site, link) = linked;
    let site = site as usize;
    if site < table.len() {
        table[site] = Some(link);
    }
}

/// Sets what uses mean at their sites, in turn.
fn set_links(table: &mut Vec<Option<Link>>, links: &[Linked])
    ensures { table.new.items ≡ with_links table.old.items links.now }
{
    for linked in links {
        set_link(table, *linked);
    }
}

/// What the uses of names in a file mean: for each site, what its part means, if it is such a use.
pub fn resolution_of(alloc: Global, file: &RawFile) -> Result<Vec<Option<Link>>, AllocError>
    requires sites { AreInOrder (see_file file.now) }
    ensures { IfOk result (λ links. links.items ≡ resolution_of (see_file file.now)) }
{
    let links = links_in(alloc, file)?;
    let mut table = vec![in alloc; None; file.places.as_slice().len()]?;
    set_links(&mut table, &links);
    Ok(table)
}
