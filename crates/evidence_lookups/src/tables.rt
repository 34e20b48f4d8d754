//! The tables of a rule file by which lines are judged.
ghost use Rattle.std.specs.Prelude.{IfOk};
ghost use Rattle.evidence_lookups.specs.code.Tables.{AreTablesOf};

use crate::owners::Owners;
use rule_names::{PieceTable, RuleFile};
use std::alloc::{AllocError, Global};

/// The tables of a rule file: its parts by their sites, and whose its bodies are.
#[derive(Drop)]
pub struct FileTables<'f> {
    pub pieces: PieceTable<'f>,
    pub owners: Owners,
}

impl<'f> FileTables<'f> {
    /// The tables of a rule file.
    pub fn new(alloc: Global, file: &'f RuleFile) -> Result<FileTables<'f>, AllocError>
        ensures { IfOk result (λ tables. AreTablesOf file.entry.now tables) }
    {
        let pieces = PieceTable::new(alloc, file)?;
        let owners = Owners::new(alloc, &pieces)?;
        Ok(FileTables { pieces, owners })
    }
}
