//! Whose the bodies of a rule file are.
ghost use Rattle.std.specs.Prelude.{◌≡◌, false, Some, length, option_map, slice_index_or, IfOk};
ghost use Rattle.guard_syntax.specs.code.Seen.{see_part, see_rule};
ghost use Rattle.rule_names.specs.code.Files.{file_of};
ghost use Rattle.rule_names.specs.Pieces.{OfPart, OfRule, piece_at};
ghost use Rattle.evidence_rules.specs.CitedLines.{body_site};
ghost use Rattle.evidence_lookups.specs.code.Owned.{AreOwners, marks_of, marks_upto, owned_by, with_mark};

use guard_syntax::{Part, Rule};
use rule_names::{Piece, PieceTable};
use std::alloc::{AllocError, Global};

/// Whose a body is.
#[derive(Clone, Copy)]
pub enum Owner {
    /// A rule without parameters.
    Rule,
    /// A `when` block.
    When,
    /// A block or a type block.
    Block,
}

/// Which bodies belong to whom: a table for each owner, by the sites of the bodies. The body of a rule with parameters is in
/// none.
#[derive(Drop)]
pub struct Owners {
    pub rules: Vec<bool>,
    pub whens: Vec<bool>,
    pub blocks: Vec<bool>,
}

impl Owners {
    /// The owners of the bodies of a rule file, by its parts.
    pub fn new(alloc: Global, pieces: &PieceTable<'_>) -> Result<Owners, AllocError>
        ensures { IfOk result (λ owners. AreOwners (file_of pieces.now.file.now) owners) }
    {
        let rules = bodies_of(alloc, pieces, Owner::Rule)?;
        let whens = bodies_of(alloc, pieces, Owner::When)?;
        let blocks = bodies_of(alloc, pieces, Owner::Block)?;
        Ok(Owners {
            rules,
            whens,
            blocks,
        })
    }

    /// Whether the body of a site belongs to such an owner.
    pub(crate) fn owns(&self, owner: Owner, site: u32) -> bool
        ensures { result ≡ slice_index_or (marks_of self.now owner) site false }
    {
        match owner {
            Owner::Rule => is_marked(&self.rules, site),
            Owner::When => is_marked(&self.whens, site),
            Owner::Block => is_marked(&self.blocks, site),
        }
    }
}

/// Whether a table has a mark at a site.
fn is_marked(marks: &[bool], site: u32) -> bool
    ensures { result ≡ slice_index_or marks.now site false }
{
    match marks.get(site as usize) {
        Some(mark) => *mark,
        None => false,
    }
}

/// The table of an owner: each site is looked at once.
fn bodies_of(alloc: Global, pieces: &PieceTable<'_>, owner: Owner) -> Result<Vec<bool>, AllocError>
    ensures { IfOk result (λ marks. marks.items ≡ marks_upto (file_of pieces.now.file.now) owner (length (file_of pieces.now.file.now).places)) }
{
    // No file has more sites than a `u32` counts.
    let Ok(count) = u32::try_from(pieces.file.raw.places.as_slice().len()) else {
        return Err(AllocError);
    };
    let mut marks = vec![in alloc; false; count as usize]?;
    for site in 0..count {
        mark(&mut marks, owned_site(pieces, site, owner));
    }
    Ok(marks)
}

/// Marks a site, where the table has it.
fn mark(marks: &mut Vec<bool>, site: Option<u32>)
    ensures { marks.new.items ≡ with_mark marks.old.items site }
{
    if let Some(site) = site {
        let site = site as usize;
        if site < marks.len() {
            marks[site] = true;
        }
    }
}

/// The site of the body that belongs to the part of a site, where that is such an owner.
fn owned_site(pieces: &PieceTable<'_>, site: u32, owner: Owner) -> Option<u32>
    ensures { result ≡ option_map body_site (owned_by owner (piece_at (file_of pieces.now.file.now) site)) }
{
    match pieces.find(site) {
        Some(Piece::Rule(rule)) => owned_by_rule(rule, owner),
        Some(Piece::Part(part)) => owned_by_part(part, owner),
        _ => None,
    }
}

/// The site of the body of a rule without parameters.
fn owned_by_rule(rule: &Rule, owner: Owner) -> Option<u32>
    ensures { result ≡ option_map body_site (owned_by owner (Some (OfRule (see_rule rule.now)))) }
{
    match owner {
        Owner::Rule => {
            if rule.params.as_slice().is_empty() {
                Some(rule.body.site)
            } else {
                None
            }
        }
        Owner::When | Owner::Block => None,
    }
}

/// The site of the body of a `when` block, of a block or of a type block.
fn owned_by_part(part: &Part, owner: Owner) -> Option<u32>
    ensures { result ≡ option_map body_site (owned_by owner (Some (OfPart (see_part part.now)))) }
{
    match owner {
        Owner::Rule => None,
        Owner::When => match part {
            Part::When { body, .. } => Some(body.site),
            _ => None,
        },
        Owner::Block => match part {
            Part::Block { body, .. } => Some(body.site),
            Part::Kinds { body, .. } => Some(body.site),
            _ => None,
        },
    }
}
