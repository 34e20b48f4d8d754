//! Where the names of keys are used.
ghost use Rattle.std.specs.Prelude.{◌≡◌, ℕ, ◌+◌, ◌<◌, ◌≤◌, List, [], ◌∷◌, ◌++◌, length, Option, None, MatchOption, slice_index};
ghost use Rattle.doc_values.specs.code.Entries.{IsNameAt, under_at};
ghost use Rattle.doc_values.specs.code.Uses.{AreLinks, IsLast, IsOpen, AreLow, IsBehindName, AreDeeper};

use crate::node::Node;
use std::alloc::Global;

/// For each name the place behind the last row that has it, and for each row the place behind an earlier row with the same
/// name, 0 where there is none.
///
/// The rows between a row and the one that its link leads to stand deeper than the row, so that no map that is still open
/// has them, and none that comes later. So each row is passed once at most, whatever the keys are.
#[derive(Drop)]
pub struct Uses {
    pub last: Vec<u32>,
    pub links: Vec<u32>,
}

impl Uses {
    /// No rows.
    pub fn new(alloc: Global) -> Uses
        ensures last { result.last.items ≡ [] }
        ensures links { result.links.items ≡ [] }
    {
        Uses {
            last: Vec::new(alloc),
            links: Vec::new(alloc),
        }
    }

    /// The link of a row more with a name under a number, if no row there has the name.
    pub fn link(&self, nodes: &[Node], under: u32, name: u32) -> Option<u32>
        requires name { name < length self.now.last.items }
        requires last { IsLast nodes.now name (slice_index self.now.last.items name) }
        requires links { AreLinks nodes.now self.now.links.items }
        requires as_many { length self.now.links.items ≡ length nodes.now }
        requires open { IsOpen nodes.now under }
        ensures { MatchOption result ((i : ℕ) × (i < length nodes.now) × IsNameAt nodes.now i name × (under_at nodes.now i ≡ under)) (λ link. (link ≤ under) × IsBehindName nodes.now name link × AreDeeper nodes.now name link (length nodes.now) under) }
    {
        let mut behind = self.last[name as usize];
        while under < behind {
            let row = (behind - 1) as usize;
            let node = &nodes[row];
            if node.seat.under == under {
                return None;
            }
            behind = self.links[row];
        }
        Some(behind)
    }
}
