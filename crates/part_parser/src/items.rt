//! What stands among each other in a body, and items that are added to what was read.
ghost use Rattle.part_parser.specs.code.Adding.{Adds};

use guard_syntax::{Disj, Let};
use literal_parser::Halt;

/// The lets and the parts of a body.
#[derive(Drop)]
pub(crate) struct BodyItems {
    pub(crate) lets: Vec<Let>,
    pub(crate) parts: Vec<Disj>,
}

/// A list that is full gets room for this part of its items more: most lists of a rule file have one item, or a few, and
/// a list of very many would leave up to half of its room empty if it doubled.
const SHARE: usize = 8;

/// Adds an item that was read behind those that were found before. Where none was read, it says why.
#[tactic(auto, unfolding(crate::specs::code::Adding::Adds))]
pub fn add<T: Drop>(found: &mut Vec<T>, read: Result<T, Halt>) -> Result<(), Halt>
    ensures { Adds read found.old.items found.new.items result }
{
    let item = read?;
    let count = found.len();
    if count == found.capacity() {
        found.reserve_exact(1 + count / SHARE)?;
    }
    match found.push(item) {
        Ok(()) => Ok(()),
        Err(_) => Err(Halt::NoMemory),
    }
}
