//! One map out of two.
ghost use Rattle.std.specs.Prelude.{◌≡◌, ℕ, ◌+◌, ◌-◌, ◌^◌, ◌<◌, List, ◌++◌, map, drop, length, slice_index_or, MatchOption, IfOk, IfErr, OnOk, true, false};
ghost use Rattle.doc_values.specs.Tree.{size};
ghost use Rattle.doc_values.specs.Places.{first_label, first_kids, label_at, kids_at};
ghost use Rattle.doc_values.specs.Merge.{is_map_tree, merged, is_shared, first_shared};
ghost use Rattle.doc_values.specs.code.Entries.{Entry};
ghost use Rattle.doc_values.specs.code.Merging.{MayMerge, IsMergeRefusal};
ghost use Rattle.doc_values.specs.code.Behind.{entry_behind, FitsBehind};

use super::{Doc, reindexed};
use crate::cursor::Cursor;
use crate::kind::Kind;
use crate::node::Node;
use std::alloc::AllocError;

/// Why two trees are not merged.
#[derive(Drop)]
pub enum MergeRefusal {
    /// The first is no map; the offset is that of its root.
    FirstNotMap(u32),
    /// The second is no map; the offset is that of its root, in the second's text.
    SecondNotMap(u32),
    /// The second has a key of the first; the offset is that of the entry's value, in the second's text.
    SharedKey(u32),
    /// The allocator gave no memory.
    NoMemory,
}

impl From<AllocError> for MergeRefusal {
    ghost use Rattle.std.specs.Prelude.{◌≡◌};
    ghost use Rattle.doc_values.specs.declared.doc.merge.MergeRefusal.TheVariants.{NoMemory};

    ghost from_gives = { λ _ e. e ≡ NoMemory };

    fn from(_: AllocError) -> MergeRefusal {
        MergeRefusal::NoMemory
    }
}

impl<'s> Doc<'s> {
    /// A map that has the entries of this one, and behind them those of another. Nodes and texts are moved, and keep their
    /// offsets. After a refusal both are gone.
    pub fn merge(self, other: Doc<'s>) -> Result<Doc<'s>, MergeRefusal>
        requires { size self + size other < 2 ^ 32 }
        ensures merged { IfOk result (λ d. MayMerge self.entry other.entry × (d ≡ merged self.entry other.entry)) }
        ensures refused { IfErr result (λ e. IsMergeRefusal self.entry other.entry e) }
    {
        if let Some(refusal) = refusal_of(&self, &other) {
            return Err(refusal);
        }
        match self.joined(other) {
            Ok(doc) => Ok(doc),
            Err(_) => Err(MergeRefusal::NoMemory),
        }
    }

    /// The merged map.
    fn joined(self, other: Doc<'s>) -> Result<Doc<'s>, AllocError>
        requires may { MayMerge self other }
        requires small { size self + size other < 4294967296 }
        ensures { IfOk result (λ d. d ≡ merged self.entry other.entry) }
    {
        let entries = self.count_in(0);
        let Doc {
            mut nodes,
            starts,
            slots,
            by_name,
            mut names,
        } = self;
        let Doc {
            nodes: others,
            starts: _,
            slots: _,
            by_name: _,
            names: more,
        } = other;
        let numbers = names.join(more)?;
        move_behind(&mut nodes, others, &numbers, entries)?;
        reindexed(nodes, starts, slots, by_name, names)
    }
}

/// Why two trees may not be merged, if they may not.
fn refusal_of(first: &Doc, second: &Doc) -> Option<MergeRefusal>
    ensures { MatchOption result (MayMerge first.now second.now) (λ e. IsMergeRefusal first.now second.now e) }
{
    if let Some(at) = no_map(first) {
        return Some(MergeRefusal::FirstNotMap(at));
    }
    if let Some(at) = no_map(second) {
        return Some(MergeRefusal::SecondNotMap(at));
    }
    match shared_key(first, second) {
        None => None,
        Some(at) => Some(MergeRefusal::SharedKey(at)),
    }
}

/// The offset of a root that is no map.
fn no_map(tree: &Doc) -> Option<u32>
    ensures { MatchOption result (is_map_tree tree.now ≡ true) (λ at. (is_map_tree tree.now ≡ false) × (at ≡ (first_label tree.now).at)) }
{
    let root = tree.root();
    match root.kind() {
        Kind::Map => None,
        _ => Some(root.at()),
    }
}

/// The offset of the first entry of the second whose key the first has.
fn shared_key(first: &Doc, second: &Doc) -> Option<u32>
    ensures { result ≡ first_shared (first_kids first.now) (first_kids second.now) }
{
    let others = first.root();
    let entries = second.root();
    for i in 0..entries.len() {
        let entry = entries.child(i);
        if is_shared(others, entry) {
            return Some(entry.at());
        }
    }
    None
}

/// Whether a map has the key of an entry of another.
fn is_shared(others: Cursor, value: Cursor) -> bool
    ensures { result ≡ is_shared (kids_at others.entry.doc.now others.entry.id) (label_at value.entry.doc.now value.entry.id).key }
{
    match value.key() {
        None => false,
        Some(key) => match others.get(key) {
            None => false,
            Some(_) => true,
        },
    }
}

/// Moves the nodes of another tree but its root behind the nodes of a tree whose root has so many entries.
fn move_behind<'s>(
    nodes: &mut Vec<Node<'s>>,
    others: Vec<Node<'s>>,
    numbers: &[u32],
    entries: u32,
) -> Result<(), AllocError>
    requires some { 0 < length nodes.old.items }
    requires small { length nodes.old.items < 4294967296 }
    requires fits { (j : ℕ) (e : Entry) → j < length others.items → e ≡ slice_index_or others.items j e → FitsBehind numbers.now (length nodes.old.items - 1) entries e }
    ensures { OnOk result (nodes.new.items ≡ nodes.old.items ++ map (entry_behind numbers.now (length nodes.old.items - 1) entries) (drop 1 others.entry.items)) }
{
    let below = (nodes.len() - 1) as u32;
    nodes.reserve(others.len())?;
    for node in others.into_iter().skip(1) {
        nodes.push(node.behind(numbers, below, entries))?;
    }
    Ok(())
}
