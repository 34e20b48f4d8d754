//! The lines of an evaluation at its beginning and at its end, and what is held in between.
ghost use Rattle.std.specs.Prelude.{◌≡◌, false};
ghost use Rattle.rule_names.specs.code.Files.{file_of};
ghost use Rattle.rule_meaning.specs.Values.{has_pattern};
ghost use Rattle.value_store.specs.code.Books.{IsBookOf};
ghost use Rattle.engine_states.specs.code.Ruling.{Rests};
ghost use Rattle.engine_states.specs.code.States.{IsWhole};
ghost use Rattle.engine_lines.specs.code.Lines.{see_lines};

use crate::engine::EngineLines;
use doc_values::Doc;
use engine_parts::frame_lines::FrameLines;
use engine_parts::site_lines::SiteLines;
use evidence_lines::{Evidence, Version};
use indexmap::IndexMap;
use rule_names::RuleFile;
use scope_frames::Frames;
use std::alloc::Global;
use value_compare::{PatternBook, Store};

impl<'t, 's> EngineLines<'t, 's> {
    /// No lines, over a rule file and a template, with the patterns of the file: nothing was evaluated. The evidence is of
    /// version 2. It takes no memory.
    pub fn new(
        alloc: Global,
        file: &'t RuleFile,
        doc: &'t Doc<'s>,
        book: &'t PatternBook,
    ) -> EngineLines<'t, 's>
        requires plain { has_pattern doc.now ≡ false }
        requires book { IsBookOf (file_of file.now) book.now }
        ensures file { (see_lines result).known.file ≡ file_of file.entry.now }
        ensures template { (see_lines result).known.template ≡ doc.entry.now }
        ensures whole { IsWhole (see_lines result) }
        ensures rests { Rests (see_lines result) }
        ensures fresh { result.spent ≡ false }
    {
        EngineLines {
            alloc,
            file,
            book,
            frames: Frames::new(alloc, file),
            store: Store::new(alloc, doc, file),
            evidence: Evidence::new(alloc, Version::Two),
            framed: Vec::new(alloc),
            parts: FrameLines::new(alloc),
            beside: IndexMap::new(alloc),
            rules: SiteLines::new(alloc, 0),
            spent: false,
        }
    }

    /// The frames that were entered.
    pub fn frames(&self) -> &Frames<'t>
        ensures { result.now ≡ self.entry.now.frames }
    {
        &self.frames
    }

    /// The template, the literals of the file, and the trees that calls have made.
    pub fn store(&self) -> &Store<'t, 's>
        ensures { result.now ≡ self.entry.now.store }
    {
        &self.store
    }

    /// The lines so far: each follows.
    pub fn evidence(&self) -> &Evidence
        ensures { result.now ≡ self.entry.now.evidence }
    {
        &self.evidence
    }

    /// The evidence and the store. All that served to find lines again is dropped.
    pub fn finish(self) -> (Evidence, Store<'t, 's>)
        ensures evidence { result.0 ≡ self.entry.evidence }
        ensures store { result.1 ≡ self.entry.store }
    {
        let EngineLines {
            evidence,
            store,
            ..
        } = self;
        (evidence, store)
    }
}
