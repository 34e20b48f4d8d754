//! The lines that an evaluation has written, and the tables by which each is found again.
ghost use Rattle.std.specs.Prelude.{◌≡◌, ◌≤◌, length};
ghost use Rattle.evidence_lines.specs.declared.version.Version.TheVariants.{Two};
ghost use Rattle.rule_names.specs.code.Files.{file_of};
ghost use Rattle.value_store.specs.code.Books.{IsBookOf};
ghost use Rattle.value_store.specs.code.Stores.{see_store};
ghost use Rattle.engine_states.specs.code.States.{StillFollows};

use crate::place::Place;
use engine_parts::frame_lines::FrameLines;
use engine_parts::site_lines::SiteLines;
use evidence_lines::Evidence;
use indexmap::IndexMap;
use rule_names::RuleFile;
use scope_frames::Frames;
use std::alloc::Global;
use value_compare::{PatternBook, Store};

/// What is known while rules are evaluated, and the evidence of it. Each of its lines follows, whatever comes. The calls that
/// add a line ask for tables that have all lines, but for `enter_file` and `enter`, which answer that there is no memory where
/// it is `spent`.
#[derive(Drop)]
pub struct EngineLines<'t, 's> {
    pub alloc: Global,
    pub file: &'t RuleFile,
    pub book: &'t PatternBook,
    pub frames: Frames<'t>,
    pub store: Store<'t, 's>,
    pub evidence: Evidence,
    /// The number of the line of each frame.
    pub framed: Vec<u64>,
    /// The lines of the parts of each frame.
    pub parts: FrameLines,
    /// The lines of what steps capture, and of the rows of type blocks.
    pub beside: IndexMap<Place, u64>,
    /// The lines of rules.
    pub rules: SiteLines,
    /// Whether a call has answered that there is no memory: the tables may lack a line of the evidence then. Here `enter_file`
    /// and `enter` note it; whoever makes the other calls notes it too.
    pub spent: bool,
    pub ghost frames_over: { frames.file.now ≡ file.now },
    pub ghost store_over: { store.file.now ≡ file.now },
    pub ghost book_is: { IsBookOf (file_of file.now) book.now },
    pub ghost tables: { length framed.items ≤ length parts.spans.items },
    pub ghost version: { evidence.version ≡ Two },
    pub ghost follows: { ∥ StillFollows (see_store store) evidence.lines ∥₁ },
}
