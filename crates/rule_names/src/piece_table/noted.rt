//! The parts of the syntax of a rule file, each noted at its site.
ghost use Rattle.std.specs.Prelude.{◌≡◌, IfOk, option_map};
ghost use Rattle.guard_syntax.specs.code.Seen.{see_file};
ghost use Rattle.rule_names.specs.Pieces.{piece_at};
ghost use Rattle.rule_names.specs.code.Seen.{see_piece};

use super::walk::in_file;
use crate::file::RuleFile;
use crate::piece::Piece;
use std::alloc::{AllocError, Global};
use std::marker::Model;

/// The part of each site of a file; the file's own site is 0. That it is so is the invariant of a model: a ghost field holds
/// only what has one proof, and of an equation of parts that is not known.
#[derive(Drop)]
pub(crate) struct Noted<'f> {
    file: &'f RuleFile,
    pieces: Vec<Piece<'f>>,
}

impl<'f> Model for Noted<'f> {
    ghost use Rattle.std.specs.Prelude.{map};
    ghost use Rattle.std.specs.Borrow.{Bor};
    ghost use Rattle.std.specs.Coded.{codes};
    ghost use Rattle.rule_names.specs.contracts.file.RuleFile as rule_file;
    ghost use Rattle.rule_names.specs.declared.file.RuleFile.{RuleFile};
    ghost use Rattle.guard_syntax.specs.code.Seen.{see_file};
    ghost use Rattle.rule_names.specs.code.PieceTables.{IsTableOf};
    ghost use Rattle.rule_names.specs.code.Seen.{see_piece};

    ghost Value = { Bor RuleFile };

    ghost coded = { Prim.hlevel (codes, rule_file.the_row.coded) };

    ghost view = { λ noted. noted.file };

    ghost invariant = { λ noted. IsTableOf (see_file noted.file.now.raw) (map see_piece noted.pieces.items) };
}

impl<'f> Noted<'f> {
    /// Notes the parts of a file.
    pub(crate) fn new(alloc: Global, file: &'f RuleFile) -> Result<Noted<'f>, AllocError>
        ensures { IfOk result (λ noted. noted.now ≡ file.entry.now) }
    {
        let mut pieces: Vec<Piece<'f>> = Vec::new(alloc);
        pieces.resize(file.raw.places.as_slice().len(), Piece::File)?;
        in_file(&file.raw, &mut pieces);
        Ok(Noted { file, pieces })
    }

    /// The part of a site, if there is one.
    pub(crate) fn find(&self, site: u32) -> Option<Piece<'f>>
        ensures { option_map see_piece result ≡ piece_at (see_file self.entry.now.now.raw) site }
    {
        self.pieces.get(site as usize).copied()
    }
}
