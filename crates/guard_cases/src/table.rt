//! A table of cases, read from its bytes.
use crate::case::Case;
use crate::heading::{Heading, Source, read_heading};
use crate::refusal::{Misfit, TableRefusal};
use crate::section::{Section, Sections, lines_in};
use std::alloc::Global;
use std::collections::BTreeSet;

/// The part that was read last, and so what may come next.
#[derive(Clone, Copy)]
enum Stage {
    Note,
    Case,
    Guard,
    Status,
    Out,
    Err,
}

impl Stage {
    /// The stage behind a heading, if it may come now.
    fn after(self, heading: &Heading<'_>) -> Option<Stage> {
        match (self, heading) {
            (Stage::Note | Stage::Status | Stage::Out | Stage::Err, Heading::Case(_)) => {
                Some(Stage::Case)
            }
            (Stage::Case, Heading::Guard(_)) => Some(Stage::Guard),
            (Stage::Guard, Heading::File { .. }) => Some(Stage::Guard),
            (Stage::Guard, Heading::Status(_)) => Some(Stage::Status),
            (Stage::Status, Heading::Out | Heading::Verdicts | Heading::Evidence) => {
                Some(Stage::Out)
            }
            (Stage::Status | Stage::Out, Heading::Err) => Some(Stage::Err),
            _ => None,
        }
    }

    /// What does not fit where the table ends here, if anything.
    fn misfit_at_end(self) -> Option<Misfit> {
        match self {
            Stage::Note => Some(Misfit::NoCase),
            Stage::Case | Stage::Guard => Some(Misfit::Order),
            Stage::Status | Stage::Out | Stage::Err => None,
        }
    }
}

/// What was read so far.
#[derive(Drop)]
struct Reader<'t> {
    cases: Vec<Case<'t>>,
    names: BTreeSet<&'t str>,
    stage: Stage,
}

/// Reads the cases of a table.
pub fn read_table(alloc: Global, table: &[u8]) -> Result<Vec<Case<'_>>, TableRefusal> {
    let mut reader = Reader {
        cases: Vec::new(alloc),
        names: BTreeSet::new(alloc),
        stage: Stage::Note,
    };
    for section in Sections::new(table) {
        reader.take(alloc, &section)?;
    }
    match reader.stage.misfit_at_end() {
        None => Ok(reader.cases),
        Some(misfit) => Err(TableRefusal::Unfit {
            line: lines_in(table).saturating_add(1),
            misfit,
        }),
    }
}

impl<'t> Reader<'t> {
    /// Takes the next section.
    fn take(&mut self, alloc: Global, section: &Section<'t>) -> Result<(), TableRefusal> {
        let heading = match read_heading(section.heading) {
            Ok(heading) => heading,
            Err(misfit) => return Err(section.unfit(misfit)),
        };
        let Some(stage) = self.stage.after(&heading) else {
            return Err(section.unfit(Misfit::Order));
        };
        self.stage = stage;
        match heading {
            Heading::Case(name) => return self.begin(alloc, name, section),
            Heading::File {
                source: Source::Out,
                ..
            } if self.cases.len() == 1 => {
                return Err(section.unfit(Misfit::NoOut));
            }
            Heading::Guard(_)
            | Heading::Status(_)
            | Heading::Evidence
            | Heading::File {
                source: Source::Out,
                ..
            } => {
                section.refuse_text()?;
            }
            _ => {}
        }
        match self.cases.last_mut() {
            Some(case) => Ok(case.add(heading, section.text)?),
            None => Err(section.unfit(Misfit::Order)),
        }
    }

    /// Begins a case, whose name no earlier one has.
    fn begin(
        &mut self,
        alloc: Global,
        name: &'t str,
        section: &Section<'t>,
    ) -> Result<(), TableRefusal> {
        match self.names.insert(name) {
            Ok(true) => {}
            Ok(false) => return Err(section.unfit(Misfit::Name)),
            Err(_) => return Err(TableRefusal::NoMemory),
        }
        match self.cases.push(Case::new(alloc, name)) {
            Ok(()) => Ok(()),
            Err(_) => Err(TableRefusal::NoMemory),
        }
    }
}
