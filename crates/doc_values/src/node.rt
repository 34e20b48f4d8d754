//! A node of a tree as it is stored.
ghost use Rattle.std.specs.Prelude.{◌≡◌, ℕ, ◌+◌, ◌<◌, ◌≤◌, length, Option, Some, IfOk};
ghost use Rattle.doc_values.specs.code.Rows.{above};
ghost use Rattle.doc_values.specs.code.Behind.{under_behind, index_behind, renamed, entry_behind, FitsBehind};
ghost use Rattle.doc_values.specs.code.Parts.{seat_below, seated};

use crate::content::Content;
use std::alloc::{AllocError, Global};
use std::marker::Model;

/// The number behind the root's.
const IN_ROOT: u32 = 1;

/// Where a node stands: how many nodes it stands in, the number behind the innermost of them (0 where it stands in
/// none), and its index beside others there.
#[derive(Clone, Copy)]
pub struct Seat {
    pub depth: u32,
    pub under: u32,
    pub index: u32,
}

impl Seat {
    /// The number of the innermost node that it stands in.
    pub fn above(&self) -> Option<u32>
        ensures { result ≡ above self.now.under }
    {
        self.under.checked_sub(1)
    }

    /// Where the same node stands behind another tree: the root's entries stand behind so many others, and what stands in
    /// them under numbers that are higher by that of the other nodes below the root.
    pub fn behind(self, nodes: u32, entries: u32) -> Seat
        requires under { self.under + nodes < 4294967296 }
        requires index { self.index + entries < 4294967296 }
        ensures { result ≡ record { depth = self.depth; under = under_behind nodes self.under; index = index_behind entries self.under self.index } }
    {
        if self.under == IN_ROOT {
            return Seat {
                depth: self.depth,
                under: IN_ROOT,
                index: self.index + entries,
            };
        }
        Seat {
            depth: self.depth,
            under: self.under + nodes,
            index: self.index,
        }
    }

    /// Where the same node stands in the tree below a node at a depth, with a number.
    pub fn below(self, depth: u32, number: u32) -> Seat
        requires deep { depth ≤ self.depth }
        requires high { number ≤ self.under }
        ensures { result ≡ seat_below depth number self }
    {
        Seat {
            depth: self.depth - depth,
            under: self.under - number,
            index: self.index,
        }
    }
}

/// The number of a name in another table.
fn renamed(numbers: &[u32], name: Option<u32>) -> Option<u32>
    requires { (n : ℕ) → name ≡ Some n → n < length numbers.now }
    ensures { result ≡ renamed numbers.now name }
{
    match name {
        None => None,
        Some(name) => Some(numbers[name as usize]),
    }
}

/// A value but for what stands in it, and where it stands. Its key is the number of a name.
#[derive(Drop)]
pub struct Node<'s> {
    pub seat: Seat,
    pub at: u32,
    pub name: Option<u32>,
    pub content: Content<'s>,
}

impl<'s> Model for Node<'s> {
    ghost use Rattle.doc_values.specs.code.Entries.{Entry};
    ghost use Rattle.doc_values.specs.code.Stored.{kind_of, text_of};

    ghost Value = { Entry };

    ghost view = { λ n. record { depth = n.seat.depth; under = n.seat.under; index = n.seat.index; kind = kind_of n.content; text = text_of n.content; name = n.name; at = n.at } };
}

impl<'s> Node<'s> {
    /// The same behind another tree (`Seat::behind`), whose names have these numbers.
    pub fn behind(self, numbers: &[u32], nodes: u32, entries: u32) -> Node<'s>
        requires { FitsBehind numbers.now nodes entries self }
        ensures { result ≡ entry_behind numbers.now nodes entries self.entry }
    {
        let Node {
            seat,
            at,
            name,
            content,
        } = self;
        Node {
            seat: seat.behind(nodes, entries),
            at,
            name: renamed(numbers, name),
            content,
        }
    }

    /// A copy with texts of its own at a seat, with the number of its name in another table.
    pub fn copy(
        &self,
        alloc: Global,
        seat: Seat,
        name: Option<u32>,
    ) -> Result<Node<'static>, AllocError>
        ensures { IfOk result (λ n. n ≡ seated seat name self.now) }
    {
        Ok(Node {
            seat,
            at: self.at,
            name,
            content: self.content.copy(alloc)?,
        })
    }

    /// The same with texts of its own.
    pub fn detach(self, alloc: Global) -> Result<Node<'static>, AllocError>
        ensures { IfOk result (λ n. n ≡ self.entry) }
    {
        let Node {
            seat,
            at,
            name,
            content,
        } = self;
        let content = content.detach(alloc)?;
        Ok(Node {
            seat,
            at,
            name,
            content,
        })
    }
}
