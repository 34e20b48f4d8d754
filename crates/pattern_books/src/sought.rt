//! The literals from which calls read patterns.
ghost use Rattle.std.specs.Prelude.{◌≡◌, ◌<◌, ◌||◌, ℕ, false, length, map, slice_index_or, IfOk, Some};
ghost use Rattle.guard_syntax.specs.code.Seen.{expr_list, see_expr, see_file};
ghost use Rattle.rule_names.specs.Uses.{expr_in};
ghost use Rattle.rule_meaning.specs.Patterns.{is_site, is_sought, literal_site, sought_at, sought_by};

use guard_syntax::Expr;
use rule_names::{Piece, PieceTable};
use std::alloc::{AllocError, Global};

/// Of each site whether a call reads a pattern from its literal.
pub(crate) fn sought_sites(
    alloc: Global,
    table: &PieceTable<'_>,
    sites: u32,
) -> Result<Vec<bool>, AllocError>
    requires { sites ≡ length (see_file table.now.file.now.raw).places }
    ensures each { IfOk result (λ marks. length marks.items ≡ sites) }
    ensures sought { IfOk result (λ marks. (n : ℕ) → n < sites → slice_index_or marks.items n false ≡ is_sought (see_file table.entry.now.file.now.raw) n) }
{
    let mut marks = vec![in alloc; false; sites as usize]?;
    for site in 0..sites {
        mark(&mut marks, sought(table, site));
    }
    Ok(marks)
}

/// Marks a site, if it is among those that can be marked.
fn mark(marks: &mut Vec<bool>, site: Option<u32>)
    ensures each { length marks.new.items ≡ length marks.old.items }
    ensures marked { (n : ℕ) → n < length marks.old.items
        → slice_index_or marks.new.items n false ≡ (slice_index_or marks.old.items n false || is_site n site) }
{
    let Some(site) = site else {
        return;
    };
    let index = site as usize;
    if index < marks.len() {
        marks[index] = true;
    }
}

/// The site of the literal from which the call of a site reads a pattern.
fn sought(table: &PieceTable<'_>, site: u32) -> Option<u32>
    ensures { result ≡ sought_at (see_file table.now.file.now.raw) site }
{
    match table.find(site)? {
        Piece::Expr(expr) => sought_by(expr),
        _ => None,
    }
}

/// The site of the literal from which an expression reads a pattern.
fn sought_by(expr: &Expr) -> Option<u32>
    ensures { result ≡ sought_by (see_expr expr.now) }
{
    match expr {
        Expr::Function { name, args, .. } => {
            if name.as_str() == "regex_replace" {
                second_literal(args)
            } else {
                None
            }
        }
        _ => None,
    }
}

/// The site of a second argument that is a literal.
fn second_literal(args: &[Expr]) -> Option<u32>
    ensures { result ≡ literal_site (expr_in (expr_list (map see_expr args.now)) 1) }
{
    match args.get(1) {
        None => None,
        Some(argument) => literal_site(argument),
    }
}

/// The site of an expression that is a literal.
fn literal_site(expr: &Expr) -> Option<u32>
    ensures { result ≡ literal_site (Some (see_expr expr.now)) }
{
    match expr {
        Expr::Literal { site, .. } => Some(*site),
        _ => None,
    }
}
