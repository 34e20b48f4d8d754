//! The parts of a rule file in a table by their sites.
ghost use Rattle.std.specs.Prelude.{◌≡◌, IfOk, option_map};
ghost use Rattle.guard_syntax.specs.code.Seen.{see_file};
ghost use Rattle.rule_names.specs.Pieces.{piece_at};
ghost use Rattle.rule_names.specs.code.Seen.{see_piece};

mod noted;
mod walk;

use crate::file::RuleFile;
use crate::piece::Piece;
use noted::Noted;
use std::alloc::{AllocError, Global};

/// The parts of a rule file by their sites, for who looks up many: made in one walk, of some 24 bytes a site.
#[derive(Drop)]
pub struct PieceTable<'f> {
    pub file: &'f RuleFile,
    noted: Noted<'f>,
    pub ghost of_file: { noted.now ≡ file.now },
}

impl<'f> PieceTable<'f> {
    /// The parts of a file.
    pub fn new(alloc: Global, file: &'f RuleFile) -> Result<PieceTable<'f>, AllocError>
        ensures { IfOk result (λ table. table.file.now ≡ file.entry.now) }
    {
        let noted = Noted::new(alloc, file)?;
        Ok(PieceTable { file, noted })
    }

    /// The part of a site, if there is one.
    pub fn find(&self, site: u32) -> Option<Piece<'f>>
        ensures { option_map see_piece result ≡ piece_at (see_file self.entry.now.file.now.raw) site }
    {
        self.noted.find(site)
    }
}
