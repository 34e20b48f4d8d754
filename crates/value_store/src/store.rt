//! What references into values stand for.
ghost use Rattle.std.specs.Prelude.{◌≡◌, ◌++◌, ◌∷◌, ℕ, [], Option, None, Some, MatchOption, IfSome, OnOk, OnErr, List, true, false};
ghost use Rattle.guard_syntax.specs.Syntax.{File};
ghost use Rattle.guard_syntax.specs.code.Seen.{see_file};
ghost use Rattle.value_store.specs.code.Books.{IsBookOf};
ghost use Rattle.value_store.specs.code.BookCovers.{holds_in, covers};
ghost use Rattle.rule_meaning.specs.StoreModel.{literal_at, made_at, stands_for, tree_of, value_in};
ghost use Rattle.rule_meaning.specs.Values.{has_pattern};
ghost use Rattle.value_store.specs.code.Kept.{AreKept};
ghost use Rattle.value_store.specs.code.Views.{IsSeenAt, IsSeenIn, see_view};

use crate::literals::literal;
use crate::made::MadeTrees;
use crate::view::View;
use doc_values::Doc;
use guard_syntax::{Origin, Ref};
use rule_names::RuleFile;
use std::alloc::{AllocError, Global};

/// The literals of the sites below this one are kept. A file of more sites may have so many literals that each is asked for
/// about once, while what is kept takes 20 bytes for each.
const KEPT_SITES: u32 = 65_536;

/// The tree of the literal of a site.
#[derive(Clone, Copy)]
pub struct KeptLiteral<'t> {
    pub site: u32,
    pub tree: &'t Doc<'static>,
}

/// The trees that references point into: a template without patterns, the literals of a rule file, and the trees that
/// function calls made.
#[derive(Drop)]
pub struct Store<'t, 's> {
    pub doc: &'t Doc<'s>,
    pub file: &'t RuleFile,
    pub made: MadeTrees,
    /// The literals that were kept, and by its site where each of them is.
    literals: Vec<KeptLiteral<'t>>,
    places: Vec<u32>,
    pub ghost plain: { has_pattern doc.now ≡ false },
    pub ghost kept: { AreKept (see_file file.now.raw) literals.items },
}

impl<'t, 's> Store<'t, 's> {
    /// A store over a template and a rule file, in which no call has made a tree. It takes no memory.
    pub fn new(alloc: Global, doc: &'t Doc<'s>, file: &'t RuleFile) -> Store<'t, 's>
        requires { has_pattern doc.now ≡ false }
        ensures doc { result.doc.now ≡ doc.entry.now }
        ensures file { result.file.now ≡ file.entry.now }
        ensures made { result.made ≡ [] }
    {
        Store {
            doc,
            file,
            made: MadeTrees::new(alloc),
            literals: Vec::new(alloc),
            places: Vec::new(alloc),
        }
    }

    /// Adds the tree that a call made, at a line and a row that have none. It is dropped on a refusal.
    pub fn add(&mut self, line: u64, row: u64, tree: Doc<'static>) -> Result<(), AllocError>
        requires absent { made_at self.old.made line row ≡ None }
        requires plain { has_pattern tree ≡ false }
        ensures doc { self.new.doc.now ≡ self.old.doc.now }
        ensures file { self.new.file.now ≡ self.old.file.now }
        ensures ok { OnOk result (self.new.made ≡ self.old.made ++ record { line = line; row = row; tree = tree.entry } ∷ []) }
        ensures err { OnErr result (self.new.made ≡ self.old.made) }
    {
        self.made.add(line, row, tree)
    }

    /// Keeps the tree of the literal of a site, so that `view` does not look for it in the file. At a high site, of which
    /// there are many in a large file alone, it keeps nothing.
    pub fn keep_literal(&mut self, site: u32, tree: &'t Doc<'static>) -> Result<(), AllocError>
        requires { literal_at (see_file self.old.file.now.raw) site ≡ Some tree.now }
        ensures doc { self.new.doc.now ≡ self.old.doc.now }
        ensures file { self.new.file.now ≡ self.old.file.now }
        ensures made { self.new.made ≡ self.old.made }
    {
        if site >= KEPT_SITES {
            return Ok(());
        }
        let place = self.places.get(site as usize).copied();
        if let Some(_) = kept_at(&self.literals, place, site) {
            return Ok(());
        }
        note_place(&mut self.places, site, self.literals.len())?;
        self.literals.push(KeptLiteral { site, tree })?;
        Ok(())
    }

    /// The value or the key that a reference stands for.
    pub fn view(&self, value: Ref) -> Option<View<'_, 's>>
        ensures value { MatchOption result
            (stands_for (record { template = self.entry.now.doc.now; file = see_file self.entry.now.file.now.raw; made = self.entry.now.made }) value ≡ None)
            (λ seen. stands_for (record { template = self.entry.now.doc.now; file = see_file self.entry.now.file.now.raw; made = self.entry.now.made }) value ≡ Some (see_view seen)) }
        ensures placed { IfSome result (IsSeenAt (tree_of (record { template = self.entry.now.doc.now; file = see_file self.entry.now.file.now.raw; made = self.entry.now.made }) value.origin) value) }
        ensures held { (book : List (List ℕ)) → IsBookOf (see_file self.entry.now.file.now.raw) book → IfSome result (λ seen. covers book (see_view seen) ≡ true) }
    {
        let doc = self.tree(value.origin)?;
        view_in(doc, value.node, value.key)
    }

    /// The tree of an origin.
    fn tree(&self, origin: Origin) -> Option<&Doc<'s>>
        ensures tree { MatchOption result
            (tree_of (record { template = self.entry.now.doc.now; file = see_file self.entry.now.file.now.raw; made = self.entry.now.made }) origin ≡ None)
            (λ tree. tree_of (record { template = self.entry.now.doc.now; file = see_file self.entry.now.file.now.raw; made = self.entry.now.made }) origin ≡ Some tree.now) }
        ensures held { (book : List (List ℕ)) → IsBookOf (see_file self.entry.now.file.now.raw) book → IfSome result (λ tree. holds_in book tree.now ≡ true) }
    {
        match origin {
            Origin::Template => Some(self.doc),
            Origin::Literal(site) => self.literal(site),
            Origin::Made { line, row } => self.made.get(line, row),
        }
    }

    /// The tree of the literal of a site.
    fn literal(&self, site: u32) -> Option<&Doc<'static>>
        ensures tree { MatchOption result (literal_at (see_file self.entry.now.file.now.raw) site ≡ None) (λ tree. literal_at (see_file self.entry.now.file.now.raw) site ≡ Some tree.now) }
        ensures held { (book : List (List ℕ)) → IsBookOf (see_file self.entry.now.file.now.raw) book → IfSome result (λ tree. holds_in book tree.now ≡ true) }
    {
        let place = self.places.get(site as usize).copied();
        match kept_at(&self.literals, place, site) {
            Some(tree) => Some(tree),
            None => literal(self.file, site),
        }
    }
}

/// The tree of the literal of a site, if it is the one that is kept at a place.
fn kept_at<'t>(
    literals: &[KeptLiteral<'t>],
    place: Option<u32>,
    site: u32,
) -> Option<&'t Doc<'static>>
    ensures { (f : File) → AreKept f literals.entry.now → IfSome result (λ tree. literal_at f site ≡ Some tree.now) }
{
    let Some(place) = place else {
        return None;
    };
    match literals.get(place as usize) {
        Some(kept) if kept.site == site => Some(kept.tree),
        _ => None,
    }
}

/// Notes where the literal of a site is kept.
fn note_place(places: &mut Vec<u32>, site: u32, place: usize) -> Result<(), AllocError> {
    // So many literals take more memory than there is.
    let Ok(place) = u32::try_from(place) else {
        return Err(AllocError);
    };
    let index = site as usize;
    if places.len() <= index {
        places.resize(index + 1, 0)?;
    }
    if let Some(noted) = places.get_mut(index) {
        *noted = place;
    }
    Ok(())
}

/// The value of a node of a tree, or its key.
fn view_in<'t, 's>(doc: &'t Doc<'s>, node: u32, key: bool) -> Option<View<'t, 's>>
    ensures value { MatchOption result (value_in node key doc.entry.now ≡ None) (λ seen. value_in node key doc.entry.now ≡ Some (see_view seen)) }
    ensures placed { IfSome result (IsSeenIn node key doc.entry.now) }
    ensures held { (book : List (List ℕ)) → holds_in book doc.entry.now ≡ true → IfSome result (λ seen. covers book (see_view seen) ≡ true) }
{
    if node >= doc.len() {
        return None;
    }
    let at = doc.cursor(node);
    if !key {
        return Some(View::At(at));
    }
    match at.key() {
        None => None,
        Some(text) => Some(View::Key(text)),
    }
}
