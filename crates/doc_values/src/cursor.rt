//! A node of a tree.
ghost use Rattle.std.specs.Prelude.{◌≡◌, ℕ, ◌<◌, ◌+◌, Option, MatchOption, Some, None, IfOk, IfSome, Bool, true};
ghost use Rattle.doc_values.specs.Places.{label_at, kids_at, tree_at, child_place, key_place, spot_of, index_of};
ghost use Rattle.doc_values.specs.Tree.{size, count, has_text};

use crate::doc::Doc;
use crate::kind::Kind;
use std::alloc::AllocError;

/// A node of a tree: a place in document order, the root 0.
#[derive(Clone, Copy)]
pub struct Cursor<'t, 's> {
    pub doc: &'t Doc<'s>,
    pub id: u32,
    pub ghost within: { id < size doc.now },
}

impl<'t, 's> Cursor<'t, 's> {
    /// What the value is.
    pub fn kind(&self) -> Kind
        ensures { result ≡ (label_at self.now.doc.now self.now.id).kind }
    {
        let node = self.doc.node(self.id);
        node.content.kind()
    }

    /// The offset of its first byte.
    pub fn at(&self) -> u32
        ensures { result ≡ (label_at self.now.doc.now self.now.id).at }
    {
        let node = self.doc.node(self.id);
        node.at
    }

    /// The bytes of a text or a pattern.
    pub fn text(&self) -> &'t str
        requires { has_text (label_at self.now.doc.now self.now.id).kind ≡ true }
        ensures { result.now ≡ (label_at self.now.doc.now self.now.id).text }
    {
        let node = self.doc.node(self.id);
        node.content.text()
    }

    /// Its key, if it is an entry of a map.
    pub fn key(&self) -> Option<&'t str>
        ensures { MatchOption result ((label_at self.now.doc.now self.now.id).key ≡ None) (λ k. (label_at self.now.doc.now self.now.id).key ≡ Some k.now) }
    {
        self.doc.key_at(self.id)
    }

    /// The collection that it stands in.
    pub fn parent(&self) -> Option<Cursor<'t, 's>>
        ensures { MatchOption result ((spot_of self.now.doc.now self.now.id).parent ≡ None) (λ c. (c.doc.now ≡ self.now.doc.now) × ((spot_of self.now.doc.now self.now.id).parent ≡ Some c.id)) }
    {
        let node = self.doc.node(self.id);
        match node.seat.above() {
            None => None,
            Some(id) => Some(Cursor { doc: self.doc, id }),
        }
    }

    /// Its index, if it is an item of a list.
    pub fn index(&self) -> Option<u32>
        ensures { result ≡ index_of self.now.doc.now self.now.id }
    {
        let node = self.doc.node(self.id);
        match node.seat.above() {
            None => None,
            Some(id) => match self.doc.node(id).content.kind() {
                Kind::List => Some(node.seat.index),
                _ => None,
            },
        }
    }

    /// The tree below it, with texts of its own. Its root has no key.
    pub fn copy(&self) -> Result<Doc<'static>, AllocError>
        ensures { IfOk result (λ d. d ≡ tree_at self.now.doc.now self.now.id) }
    {
        self.doc.part(self.id)
    }

    /// How many values stand in it.
    pub fn len(&self) -> usize
        ensures { result ≡ count (kids_at self.now.doc.now self.now.id) }
    {
        self.doc.count_in(self.id) as usize
    }

    /// The value at an index in it.
    pub fn child(&self, i: usize) -> Cursor<'t, 's>
        requires { i < count (kids_at self.now.doc.now self.now.id) }
        ensures doc { result.doc.now ≡ self.now.doc.now }
        ensures id { result.id ≡ child_place (self.now.id + 1) (kids_at self.now.doc.now self.now.id) i }
    {
        Cursor {
            doc: self.doc,
            id: self.doc.child_in(self.id, i),
        }
    }

    /// The value of a key in it.
    pub fn get(&self, key: &str) -> Option<Cursor<'t, 's>>
        ensures { MatchOption result (key_place (self.now.id + 1) (kids_at self.now.doc.now self.now.id) key.now ≡ None) (λ c. (c.doc.now ≡ self.now.doc.now) × (key_place (self.now.id + 1) (kids_at self.now.doc.now self.now.id) key.now ≡ Some c.id)) }
    {
        match self.doc.key_in(self.id, key) {
            None => None,
            Some(id) => Some(Cursor { doc: self.doc, id }),
        }
    }
}
