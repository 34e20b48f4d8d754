//! What a line of evidence is judged over, and a line in its frame.
ghost use Rattle.std.specs.Prelude.{◌≡◌, length, option_map};
ghost use Rattle.rule_names.specs.Pieces.{piece_at};
ghost use Rattle.rule_names.specs.code.Seen.{see_piece};
ghost use Rattle.value_store.specs.code.Books.{IsBookOf};
ghost use Rattle.value_store.specs.code.Stores.{see_store};
ghost use Rattle.evidence_lookups.specs.code.JudgedSites.{AreNoted};
ghost use Rattle.evidence_lookups.specs.code.Owned.{AreOwners};
ghost use Rattle.evidence_lookups.specs.code.Said.{AreMadeWithin, AreSound};

use crate::judged::Judged;
use crate::tables::FileTables;
use evidence_lines::{LineKind, LineList, Version};
use pattern_books::PatternBook;
use rule_names::{Piece, RuleFile};
use std::alloc::Global;
use value_store::Store;

/// What a line is judged over, which judging it does not change: the version of the evidence, the rules with the trees that
/// references point into, the patterns, the tables of the rules, and the lines before, each of which follows, with what their
/// `rule` lines say.
#[derive(Drop)]
pub struct LineContext<'g, 't, 's> {
    pub alloc: Global,
    pub version: Version,
    /// The rules of the store and of the tables, by which the two go together.
    pub file: &'t RuleFile,
    pub store: &'g Store<'t, 's>,
    pub book: &'g PatternBook,
    pub tables: &'g FileTables<'t>,
    pub judged: &'g Judged,
    pub lines: LineList<'g>,
    pub ghost book_is: { IsBookOf (see_store store.now).file book.now },
    pub ghost store_over: { store.now.file.now ≡ file.now },
    pub ghost pieces_over: { tables.now.pieces.file.now ≡ file.now },
    pub ghost owners_are: { AreOwners (see_store store.now).file tables.now.owners },
    pub ghost judged_are: { AreNoted lines judged.now.of.items },
    pub ghost sound: { AreSound (see_store store.now) lines },
    pub ghost within: { AreMadeWithin (length lines) (see_store store.now).made },
}

impl<'g, 't, 's> LineContext<'g, 't, 's> {
    /// The part of a site of the rules, if there is one.
    pub fn find(&self, site: u32) -> Option<Piece<'t>>
        ensures { option_map see_piece result ≡ piece_at (see_store self.entry.now.store.now).file site }
    {
        self.tables.pieces.find(site)
    }
}

/// A line in a frame and of a site, but for what it says.
#[derive(Clone, Copy)]
pub struct SitedLine<'l> {
    pub frame: u64,
    pub site: u32,
    pub kind: LineKind,
    pub cites: &'l [u64],
}
