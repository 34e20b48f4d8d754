//! An engine at its beginning and at its end, and what it holds in between.
ghost use Rattle.std.specs.Prelude.{◌≡◌, false};
ghost use Rattle.rule_names.specs.code.Files.{file_of};
ghost use Rattle.rule_meaning.specs.Values.{has_pattern};
ghost use Rattle.value_store.specs.code.Books.{IsBookOf};
ghost use Rattle.engine_states.specs.code.Ruling.{Rests};
ghost use Rattle.engine_states.specs.code.States.{IsWhole};
ghost use Rattle.clause_eval.specs.code.Engines.{see_engine};

use crate::engine::Engine;
use doc_values::Doc;
use engine_lines::EngineLines;
use evidence_lines::Evidence;
use rule_names::RuleFile;
use scope_frames::Frames;
use std::alloc::Global;
use value_compare::{PatternBook, Store};

impl<'t, 's> Engine<'t, 's> {
    /// An engine over a rule file and a template, with the patterns of the file. It has evaluated nothing, and writes
    /// evidence of version 2. It takes no memory.
    pub fn new(
        alloc: Global,
        file: &'t RuleFile,
        doc: &'t Doc<'s>,
        book: &'t PatternBook,
    ) -> Engine<'t, 's>
        requires plain { has_pattern doc.now ≡ false }
        requires book { IsBookOf (file_of file.now) book.now }
        ensures file { (see_engine result).known.file ≡ file_of file.entry.now }
        ensures template { (see_engine result).known.template ≡ doc.entry.now }
        ensures whole { IsWhole (see_engine result) }
        ensures rests { Rests (see_engine result) }
        ensures fresh { result.lines.spent ≡ false }
    {
        Engine {
            lines: EngineLines::new(alloc, file, doc, book),
        }
    }

    /// The frames that were entered.
    pub fn frames(&self) -> &Frames<'t>
        ensures { result.now ≡ self.entry.now.lines.frames }
    {
        self.lines.frames()
    }

    /// The template, the literals of the file, and the trees that calls have made.
    pub fn store(&self) -> &Store<'t, 's>
        ensures { result.now ≡ self.entry.now.lines.store }
    {
        self.lines.store()
    }

    /// The lines so far: each follows.
    pub fn evidence(&self) -> &Evidence
        ensures { result.now ≡ self.entry.now.lines.evidence }
    {
        self.lines.evidence()
    }

    /// The evidence and the store. All that served to find lines again is dropped.
    pub fn finish(self) -> (Evidence, Store<'t, 's>)
        ensures evidence { result.0 ≡ self.entry.lines.evidence }
        ensures store { result.1 ≡ self.entry.lines.store }
    {
        self.lines.finish()
    }
}
