//! The nodes of a tree that grows.
ghost use Rattle.std.specs.Prelude.{◌≡◌, ℕ, ◌<◌, ◌≤◌, List, [], ◌∷◌, ◌++◌, length, true, false, not, is_some, if◌then◌else◌, slice_index_or, OnErr, OnOk, IfOk, Option, Some, None, MatchOption, vec_capacity, vec_len};
ghost use Rattle.std.specs.Cow.{cow_str_bytes};
ghost use Rattle.doc_values.specs.Tree.{has_text};
ghost use Rattle.doc_values.specs.code.Entries.{Entry, rows_in};
ghost use Rattle.doc_values.specs.code.Growth.{key_of, IsFor};
ghost use Rattle.key_names.specs.code.Names.{IsTable, IsSame, name_of, texts_of};
ghost use Rattle.doc_values.specs.code.Uses.{IsOpen};
ghost use Rattle.doc_values.specs.code.Index.{among, keyed, IsNewUnder, IsOpenUnder, no_row, row_of, IsUsed, IsKnown, IsAwaited, IsNumbered, Takes, awaited_in};

use crate::content::Content;
use crate::kind::Kind;
use crate::node::{Node, Seat};
use crate::uses::Uses;
use key_names::Names;
use std::alloc::{AllocError, Global};
use std::borrow::CowStr;
use std::marker::Model;

/// The most nodes: two trees that were built make one whose nodes' numbers, and those behind them, have 32 bits.
const NODES: usize = 2147483647;

/// A key that awaits its value: the number behind the node that it stands in, the number of its name if it has been there
/// before, and the link of the row that it will stand in.
#[derive(Drop)]
pub struct Awaited<'s> {
    pub text: CowStr<'s>,
    pub under: u32,
    pub name: Option<u32>,
    pub link: u32,
}

/// What a row takes of its key: the number of its name, and its link.
#[derive(Clone, Copy)]
pub struct Taken {
    pub name: Option<u32>,
    pub link: u32,
}

/// The nodes in document order, and beside them room for what `Doc` keeps of each, so that a tree is finished in place; and
/// the key of the node that comes next.
#[derive(Drop)]
pub struct Arena<'s> {
    pub alloc: Global,
    pub nodes: Vec<Node<'s>>,
    pub starts: Vec<u32>,
    pub slots: Vec<u32>,
    pub names: Names<'s>,
    pub uses: Uses,
    pub key: Option<Awaited<'s>>,
}

impl<'s> Model for Arena<'s> {
    ghost use Rattle.doc_values.specs.code.Growth.{Growth};
    ghost use Rattle.doc_values.specs.code.Codes.{growth_code};
    ghost use Rattle.doc_values.specs.code.Entries.{rows_in};
    ghost use Rattle.key_names.specs.code.Names.{texts_of};
    ghost use Rattle.doc_values.specs.code.Index.{awaited_in, IsArena};

    ghost Value = { Growth };

    ghost coded = { growth_code };

    ghost view = { λ a. record { rows = rows_in (texts_of a.names) a.nodes.items; key = awaited_in a.key } };

    ghost invariant = { λ a. IsArena a.nodes.items a.starts.items a.slots.items a.names a.uses a.key };
}

impl<'s> Arena<'s> {
    /// No nodes.
    pub fn new(alloc: Global) -> Arena<'s>
        ensures rows { result.rows ≡ [] }
        ensures key { result.key ≡ None }
    {
        Arena {
            alloc,
            nodes: Vec::new(alloc),
            starts: Vec::new(alloc),
            slots: Vec::new(alloc),
            names: Names::new(alloc),
            uses: Uses::new(alloc),
            key: None,
        }
    }

    /// How many nodes there are.
    pub fn len(&self) -> u32
        ensures nodes { result ≡ length self.now.rows }
        ensures small { length self.now.rows < 2147483648 }
    {
        self.nodes.len() as u32
    }

    /// The kind of a node.
    pub fn kind(&self, id: u32) -> Kind
        requires { id < length self.now.rows }
        ensures { result ≡ (slice_index_or self.now.rows id no_row).label.kind }
    {
        let node = &self.nodes[id as usize];
        node.content.kind()
    }

    /// The key of the node that comes next, if no node under a number has it yet: whether that is so.
    pub fn await_key(&mut self, under: u32, text: CowStr<'s>) -> bool
        requires none { self.old.key ≡ None }
        requires open { IsOpenUnder self.old.rows under }
        ensures new { result ≡ not (is_some (keyed (cow_str_bytes text.entry) (among 0 under self.old.rows))) }
        ensures rows { self.new.rows ≡ self.old.rows }
        ensures key { self.new.key ≡ (if result then Some (record { text = cow_str_bytes text.entry; under = under }) else None) }
    {
        match new_key(&self.names, &self.uses, &self.nodes, under, text) {
            None => false,
            Some(key) => {
                self.key = Some(key);
                true
            }
        }
    }

    /// A node more, which takes the key that awaits its value. Without memory, and where no more can be counted, nothing
    /// changes.
    pub fn put(
        &mut self,
        seat: Seat,
        kind: Kind,
        text: CowStr<'s>,
        at: u32,
    ) -> Result<(), AllocError>
        requires key { IsFor seat.under self.old.key }
        requires new { IsNewUnder self.old.rows seat.under (key_of self.old.key) }
        requires low { seat.under ≤ length self.old.rows }
        requires text { has_text kind ≡ false → cow_str_bytes text ≡ [] }
        ensures rows { OnOk result (self.new.rows ≡ self.old.rows ++ row_of seat (record { kind = kind; text = cow_str_bytes text.entry; key = key_of self.old.key; at = at }) ∷ []) }
        ensures taken { OnOk result (self.new.key ≡ None) }
        ensures err { OnErr result (self.new ≡ self.old) }
        ensures small { length self.new.rows < 2147483648 }
    {
        make_room(
            &mut self.nodes,
            &mut self.starts,
            &mut self.slots,
            &mut self.uses.links,
        )?;
        let content = Content::of(self.alloc, kind, text)?;
        let number = self.nodes.len() as u32;
        let taken = take_key(&mut self.key, &mut self.names, &mut self.uses.last, number)?;
        self.uses.links.push_reserved(taken.link);
        self.starts.push_reserved(0);
        self.slots.push_reserved(0);
        self.nodes.push_reserved(Node {
            seat,
            at,
            name: taken.name,
            content,
        });
        Ok(())
    }
}

/// A key that awaits its value under a number, if no node there has it.
fn new_key<'s>(
    names: &Names<'s>,
    uses: &Uses,
    nodes: &[Node<'s>],
    under: u32,
    text: CowStr<'s>,
) -> Option<Awaited<'s>>
    requires used { IsUsed nodes.now names.now uses.now.last.items uses.now.links.items }
    requires open { IsOpen nodes.now under }
    ensures { MatchOption result (is_some (keyed (cow_str_bytes text.entry) (among 0 under (rows_in (texts_of names.now) nodes.now))) ≡ true) (λ key. (keyed (cow_str_bytes text.entry) (among 0 under (rows_in (texts_of names.now) nodes.now)) ≡ None) × (awaited_in (Some key) ≡ Some (record { text = cow_str_bytes text.entry; under = under })) × IsAwaited nodes.now names.now (Some key)) }
{
    let Some(name) = names.number(text.as_str()) else {
        return Some(Awaited {
            text,
            under,
            name: None,
            link: 0,
        });
    };
    let Some(link) = uses.link(nodes, under, name) else {
        return None;
    };
    Some(Awaited {
        text,
        under,
        name: Some(name),
        link,
    })
}

/// The number of the name of a key, which it gets here if it is new.
fn known_name<'s>(
    key: &mut Awaited<'s>,
    names: &mut Names<'s>,
    last: &mut Vec<u32>,
) -> Result<u32, AllocError>
    requires table { IsTable names.old }
    requires known { key.old.name ≡ name_of names.old (cow_str_bytes key.old.text) }
    ensures ok { IfOk result (λ n. IsNumbered names.old names.new last.old.items last.new.items (cow_str_bytes key.old.text) n) }
    ensures link { key.new.link ≡ key.old.link }
    ensures under { key.new.under ≡ key.old.under }
    ensures name { key.new.name ≡ key.old.name }
    ensures err { OnErr result (IsSame names.old names.new × (cow_str_bytes key.new.text ≡ cow_str_bytes key.old.text) × (last.new.items ≡ last.old.items)) }
{
    if let Some(name) = key.name {
        return Ok(name);
    }
    last.reserve(1)?;
    let name = names.add(&mut key.text)?;
    last.push_reserved(0);
    Ok(name)
}

/// The key that awaits its value, if one does, is taken by the row with a number.
fn take_key<'s>(
    key: &mut Option<Awaited<'s>>,
    names: &mut Names<'s>,
    last: &mut Vec<u32>,
    number: u32,
) -> Result<Taken, AllocError>
    requires table { IsTable names.old }
    requires known { IsKnown names.old key.old }
    requires counted { length last.old.items ≡ length (texts_of names.old) }
    requires small { number < 4294967295 }
    ensures ok { IfOk result (λ taken. Takes key.old names.old last.old.items number taken names.new last.new.items) }
    ensures taken { OnOk result (key.new ≡ None) }
    ensures same { OnErr result (IsSame names.old names.new × (last.new.items ≡ last.old.items)) }
    ensures awaited { OnErr result (awaited_in key.new ≡ awaited_in key.old) }
    ensures kept { OnErr result ((es : List Entry) → IsAwaited es names.old key.old → IsAwaited es names.new key.new) }
{
    let Some(waiting) = &mut *key else {
        return Ok(Taken {
            name: None,
            link: 0,
        });
    };
    let name = known_name(waiting, names, last)?;
    let link = waiting.link;
    names.follow(name);
    last[name as usize] = number + 1;
    *key = None;
    Ok(Taken {
        name: Some(name),
        link,
    })
}

/// Room for a node more, where one more can be counted.
fn make_room(
    nodes: &mut Vec<Node<'_>>,
    starts: &mut Vec<u32>,
    slots: &mut Vec<u32>,
    links: &mut Vec<u32>,
) -> Result<(), AllocError>
    ensures nodes { nodes.new.items ≡ nodes.old.items }
    ensures starts { starts.new.items ≡ starts.old.items }
    ensures slots { slots.new.items ≡ slots.old.items }
    ensures links { links.new.items ≡ links.old.items }
    ensures room { OnOk result ((length nodes.new.items < 2147483647) × (vec_len nodes.new < vec_capacity nodes.new) × (vec_len starts.new < vec_capacity starts.new) × (vec_len slots.new < vec_capacity slots.new) × (vec_len links.new < vec_capacity links.new)) }
{
    if NODES <= nodes.len() {
        return Err(AllocError);
    }
    nodes.reserve(1)?;
    starts.reserve(1)?;
    slots.reserve(1)?;
    links.reserve(1)
}
