//! A part of a tree, as a tree of its own.
ghost use Rattle.std.specs.Prelude.{◌≡◌, ℕ, ◌+◌, ◌<◌, [], Option, Some, IfOk, OnOk, length};
ghost use Rattle.doc_values.specs.Tree.{size};
ghost use Rattle.doc_values.specs.Places.{kids_at, tree_at};
ghost use Rattle.doc_values.specs.code.Rows.{tree_of};
ghost use Rattle.doc_values.specs.code.Entries.{rows_in};
ghost use Rattle.key_names.specs.code.Names.{texts_of, IsTable};
ghost use Rattle.doc_values.specs.code.Index.{IsFinished};
ghost use Rattle.doc_values.specs.code.Parts.{Notes};

use super::{Doc, reindexed};
use crate::node::{Node, Seat};
use key_names::Names;
use std::alloc::AllocError;

impl<'s> Doc<'s> {
    /// The tree below a node.
    pub(crate) fn part(&self, id: u32) -> Result<Doc<'static>, AllocError>
        requires { id < size self.now }
        ensures { IfOk result (λ d. d ≡ tree_at self.now id) }
    {
        let alloc = *self.nodes.allocator();
        let mut names: Names<'static> = Names::new(alloc);
        let mut nodes: Vec<Node<'static>> = Vec::new(alloc);
        self.copy_nodes(id, &mut names, &mut nodes)?;
        reindexed(
            nodes,
            Vec::new(alloc),
            Vec::new(alloc),
            Vec::new(alloc),
            names,
        )
    }

    /// Copies of the nodes of the tree below a node, and of the names of their keys.
    fn copy_nodes(
        &self,
        id: u32,
        names: &mut Names<'static>,
        nodes: &mut Vec<Node<'static>>,
    ) -> Result<(), AllocError>
        requires id { id < size self.now }
        requires table { IsTable names.old }
        requires none { nodes.old.items ≡ [] }
        ensures { OnOk result (IsFinished nodes.new.items names.new × (tree_of (rows_in (texts_of names.new) nodes.new.items) ≡ tree_at self.now id)) }
    {
        let alloc = *self.nodes.allocator();
        let top = Seat {
            depth: 0,
            under: 0,
            index: 0,
        };
        let root = &self.nodes[id as usize];
        let depth = root.seat.depth;
        nodes.push(root.copy(alloc, top, None)?)?;
        for j in id + 1..self.end_of(id) {
            let node = &self.nodes[j as usize];
            let name = noted(&self.names, node.name, names)?;
            nodes.push(node.copy(alloc, node.seat.below(depth, id), name)?)?;
        }
        Ok(())
    }

    /// The number behind the last node in a node: the first behind it that stands no deeper, or that of all nodes.
    fn end_of(&self, id: u32) -> u32
        requires { id < size self.now }
        ensures { result ≡ id + 1 + size (kids_at self.now id) }
    {
        let root = &self.nodes[id as usize];
        let depth = root.seat.depth;
        let count = self.nodes.len() as u32;
        for j in id + 1..count {
            let node = &self.nodes[j as usize];
            if node.seat.depth <= depth {
                return j;
            }
        }
        count
    }
}

/// The number of the name of a key in another table, which it gets there if it is new.
fn noted(
    own: &Names,
    name: Option<u32>,
    names: &mut Names<'static>,
) -> Result<Option<u32>, AllocError>
    requires named { (n : ℕ) → name ≡ Some n → n < length (texts_of own.now) }
    requires table { IsTable names.old }
    ensures { IfOk result (λ found. Notes own.now names.old names.new name found) }
{
    match name {
        None => Ok(None),
        Some(name) => Ok(Some(names.note(own.text(name))?)),
    }
}
