//! The unfinished tree, which grows by events.
ghost use Rattle.std.specs.Prelude.{◌≡◌, ℕ, zero, ◌+◌, ◌<◌, ◌≤◌, ◌^◌, length, List, [], IfOk, OnOk, OnErr, MatchResult, Option, Some, None, Bool, true, false, IsTrue, IfErr, IsOk, Err, ◌⊎◌};
ghost use Rattle.std.specs.Cow.{cow_str_bytes};
ghost use Rattle.doc_values.specs.Tree.{size, has_key, holds_values, has_text, IsTree};
ghost use Rattle.doc_values.specs.Unfinished.{start, with_value, with_open, open_kind, with_key, with_end, innermost, AwaitsValue, AwaitsKey, MayEnd, IsComplete};

use crate::arena::Arena;
use crate::doc::Doc;
use crate::kind::Kind;
use crate::node::Seat;
use std::alloc::{AllocError, Global};
use std::borrow::CowStr;
use std::marker::Model;

/// The most collections that stand in each other.
pub(crate) const DEPTH: u32 = 128;

/// Why an event is refused. A refused event leaves the builder as it was.
#[derive(Drop)]
pub enum BuildRefusal {
    /// The open map has this key already; the offset is that of the event.
    DuplicateKey(u32),
    /// As many collections are open as may be; the offset is that of the event.
    TooDeep(u32),
    /// The allocator gave no memory, or the tree has as many nodes as can be counted.
    NoMemory,
}

impl From<AllocError> for BuildRefusal {
    ghost use Rattle.std.specs.Prelude.{◌≡◌};
    ghost use Rattle.doc_values.specs.declared.builder.BuildRefusal.TheVariants.{NoMemory};

    ghost from_gives = { λ _ e. e ≡ NoMemory };

    fn from(_: AllocError) -> BuildRefusal {
        BuildRefusal::NoMemory
    }
}

/// An unfinished tree. A reader of a format makes its events in document order.
#[derive(Drop)]
pub struct DocBuilder<'s> {
    arena: Arena<'s>,
    /// Where the value behind each open collection stands, the innermost last.
    seats: Vec<Seat>,
    /// Where the next value stands.
    seat: Seat,
}

impl<'s> Model for DocBuilder<'s> {
    ghost use Rattle.doc_values.specs.Unfinished.{Unfinished};
    ghost use Rattle.doc_values.specs.code.Codes.{unfinished_code};
    ghost use Rattle.doc_values.specs.code.Kept.{unfinished, IsGrowing};
    ghost use Rattle.doc_values.specs.code.Growth.{key_of};

    ghost Value = { Unfinished };

    ghost coded = { unfinished_code };

    ghost view = { λ b. unfinished b.seat.depth b.arena.rows (key_of b.arena.key) };

    ghost invariant = { λ b. IsGrowing b.seats.items b.seat b.arena };
}

impl<'s> DocBuilder<'s> {
    /// The tree of which nothing is there.
    pub fn new(alloc: Global) -> DocBuilder<'s>
        ensures { result ≡ start }
    {
        DocBuilder {
            arena: Arena::new(alloc),
            seats: Vec::new(alloc),
            seat: Seat {
                depth: 0,
                under: 0,
                index: 0,
            },
        }
    }

    /// How many collections are open.
    pub fn depth(&self) -> u32
        ensures { result ≡ length self.now.outer }
    {
        self.seat.depth
    }

    /// The kind of the innermost open collection.
    pub fn innermost(&self) -> Option<Kind>
        ensures { result ≡ innermost self.now.outer }
    {
        if self.seat.depth == 0 {
            return None;
        }
        Some(self.arena.kind(self.seat.under - 1))
    }

    /// A value that holds none, at the offset of its first byte.
    pub fn scalar(&mut self, kind: Kind, text: CowStr<'s>, at: u32) -> Result<(), BuildRefusal>
        requires awaited { AwaitsValue self.old }
        requires plain { holds_values kind ≡ false }
        requires text { has_text kind ≡ false → cow_str_bytes text ≡ [] }
        ensures ok { OnOk result (self.new ≡ with_value kind (cow_str_bytes text.entry) at self.old) }
        ensures refused { IfErr result (λ e. e ≡ BuildRefusal.NoMemory) }
        ensures kept { OnErr result (self.new ≡ self.old) }
    {
        self.arena.put(self.seat, kind, text, at)?;
        self.seat.index += 1;
        Ok(())
    }

    /// A map or a list begins, at the offset of its first byte.
    pub fn begin(&mut self, map: bool, at: u32) -> Result<(), BuildRefusal>
        requires awaited { AwaitsValue self.old }
        ensures ok { OnOk result ((self.new ≡ with_open (open_kind map) at self.old) × (length self.old.outer < 128)) }
        ensures refused { IfErr result (λ e. (e ≡ BuildRefusal.NoMemory) ⊎ ((e ≡ BuildRefusal.TooDeep at) × (length self.old.outer ≡ 128))) }
        ensures no_memory_where_deep { length self.old.outer ≡ 128 → result ≡ Err (BuildRefusal.TooDeep at) }
        ensures kept { OnErr result (self.new ≡ self.old) }
    {
        if self.seat.depth == DEPTH {
            return Err(BuildRefusal::TooDeep(at));
        }
        self.seats.reserve(1)?;
        let number = self.arena.len();
        let kind = collection(map);
        self.arena.put(self.seat, kind, CowStr::Borrowed(""), at)?;
        let seat = self.seat;
        self.seats.push_reserved(Seat {
            depth: seat.depth,
            under: seat.under,
            index: seat.index + 1,
        });
        self.seat = Seat {
            depth: seat.depth + 1,
            under: number + 1,
            index: 0,
        };
        Ok(())
    }

    /// The key of the entry that comes next. The offset is kept in a refusal alone.
    pub fn key(&mut self, text: CowStr<'s>, at: u32) -> Result<(), BuildRefusal>
        requires awaited { AwaitsKey self.old }
        ensures ok { OnOk result ((self.new ≡ with_key (cow_str_bytes text.entry) self.old) × (has_key self.old.done (cow_str_bytes text.entry) ≡ false)) }
        ensures refused { IfErr result (λ e. (e ≡ BuildRefusal.NoMemory) ⊎ ((e ≡ BuildRefusal.DuplicateKey at) × (has_key self.old.done (cow_str_bytes text.entry) ≡ true))) }
        ensures no_memory { IfErr result (λ e. e ≡ BuildRefusal.DuplicateKey at) }
        ensures kept { OnErr result (self.new ≡ self.old) }
    {
        if !self.arena.await_key(self.seat.under, text) {
            return Err(BuildRefusal::DuplicateKey(at));
        }
        Ok(())
    }

    /// The innermost collection ends.
    pub fn end(&mut self) -> Result<(), BuildRefusal>
        requires awaited { MayEnd self.old }
        ensures ok { OnOk result (self.new ≡ with_end self.old) }
        ensures refused { IfErr result (λ e. e ≡ BuildRefusal.NoMemory) }
        ensures no_memory { IsOk result }
        ensures kept { OnErr result (self.new ≡ self.old) }
    {
        let Some(seat) = self.seats.pop() else {
            unreachable!()
        };
        self.seat = seat;
        Ok(())
    }

    /// The tree.
    pub fn finish(self) -> Doc<'s>
        requires complete { IsComplete self }
        ensures done { result ≡ self.entry.done }
        ensures tree { IsTree result }
        ensures small { size result < 2 ^ 31 }
    {
        let DocBuilder {
            arena,
            seats: _,
            seat: _,
        } = self;
        Doc::of(arena)
    }
}

/// The kind of a collection.
fn collection(map: bool) -> Kind
    ensures { result ≡ open_kind map }
{
    if map { Kind::Map } else { Kind::List }
}
