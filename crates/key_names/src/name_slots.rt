//! Numbers of names by their texts.
ghost use Rattle.std.specs.Prelude.{◌≡◌, ◌+◌, ◌<◌, ◌≤◌, ◌++◌, ◌∷◌, [], max, map, length, None, IfOk, OnOk, OnErr, MatchOption, slice_index};
ghost use Rattle.std.specs.Cow.{cow_str_bytes};
ghost use Rattle.key_names.specs.code.TextNumbers.{number_by, links_in, IsKept};
ghost use Rattle.key_names.specs.code.NameSlots.{hash_of, first_of, found_in, AreSlotted, AreFound, AreNumbered, AreDistinct, AreOf, AreTaken, Places, Widened};

use crate::text_numbers::TextNumbers;
use std::alloc::{AllocError, Global};
use std::borrow::CowStr;

/// How many slots a text may be in.
const NEAR: usize = 16;

/// How many slots there are once there is a name.
const FIRST_SLOTS: usize = 64;

/// What a free slot holds.
const FREE: u32 = 0;

/// An odd number whose multiples are spread well: 2^64 divided by the golden ratio.
const FACTOR: u64 = 11400714819323198485;

/// One more than a hash's lower half can be.
const HALF: u64 = 4294967296;

/// Numbers of names by their texts.
///
/// A hash of a text tells the sixteen slots, one behind the other, that its number may be in, and a comparison with the text of
/// each number there whether it is the one. A text that finds them all taken gets its number in the ordered map. So whatever the
/// texts are, a look-up compares sixteen at most and then asks the map, whose steps grow with the bytes of the text alone: keys
/// that are chosen to share their slots gain little, and the hash needs no seed. No name is ever removed, so a free slot says
/// that the text is in none behind it.
#[derive(Drop)]
pub struct NameSlots {
    /// The number of a name and one more, or `FREE`.
    pub slots: Vec<u32>,
    /// The numbers of the texts that found no free slot.
    pub others: TextNumbers,
    alloc: Global,
}

impl NameSlots {
    /// No names.
    pub fn new(alloc: Global) -> NameSlots
        ensures slots { result.slots.items ≡ [] }
        ensures others { (k : _) → number_by (links_in result.others.links) k ≡ None }
    {
        NameSlots {
            slots: Vec::new(alloc),
            others: TextNumbers::new(alloc),
            alloc,
        }
    }

    /// The number of a name, by its text and the texts of all.
    pub fn get(&self, texts: &[CowStr], text: &str) -> Option<u32>
        requires { AreSlotted (map cow_str_bytes texts.now) self.now.slots.items (links_in self.now.others.links) }
        ensures { result ≡ found_in (map cow_str_bytes texts.now) self.now.slots.items (links_in self.now.others.links) text.now }
    {
        let first = first_slot(text, self.slots.len());
        for at in first..first + NEAR {
            let slot = self.slot(at);
            if slot == FREE {
                return None;
            }
            let number = slot - 1;
            if texts[number as usize].as_str() == text {
                return Some(number);
            }
        }
        self.others.get(text)
    }

    /// What a slot holds. Where no slot is, that is as if it were free.
    fn slot(&self, at: usize) -> u32
        ensures { result ≡ slice_index self.now.slots.items at }
    {
        self.slots.get(at).copied().unwrap_or(FREE)
    }

    /// Gives a new name, which stands behind these texts, the next number. Without memory nothing changes.
    pub fn insert(&mut self, texts: &[CowStr], text: &str) -> Result<(), AllocError>
        requires small { length texts.now < 4294967295 }
        requires numbered { AreNumbered (map cow_str_bytes texts.now) self.old }
        requires new { found_in (map cow_str_bytes texts.now) self.old.slots.items (links_in self.old.others.links) text.now ≡ None }
        ensures ok { OnOk result (AreNumbered (map cow_str_bytes texts.now ++ text.now ∷ []) self.new) }
        ensures err { OnErr result (AreNumbered (map cow_str_bytes texts.now) self.new) }
    {
        self.make_room(texts)?;
        place(&mut self.slots, &mut self.others, text, texts.len() as u32)
    }

    /// Makes the slots more than twice as many as the names.
    fn make_room(&mut self, texts: &[CowStr]) -> Result<(), AllocError>
        requires small { length texts.now < 4294967295 }
        requires numbered { AreNumbered (map cow_str_bytes texts.now) self.old }
        ensures numbered { AreNumbered (map cow_str_bytes texts.now) self.new }
        ensures room { OnOk result (16 ≤ length self.new.slots.items) }
    {
        let count = texts.len();
        if NEAR <= self.slots.len() && 2 * count < self.slots.len() {
            return Ok(());
        }
        let mut slots = Vec::new(self.alloc);
        slots.resize(4 * count + FIRST_SLOTS, FREE)?;
        place_all(&mut slots, &mut self.others, texts)?;
        self.slots = slots;
        Ok(())
    }
}

/// Gives each of these texts its number in slots that are free.
fn place_all(
    slots: &mut [u32],
    others: &mut TextNumbers,
    texts: &[CowStr],
) -> Result<(), AllocError>
    requires small { length texts.now < 4294967295 }
    requires room { 16 ≤ length slots.old }
    requires free { (i : _) → slice_index slots.old i ≡ 0 }
    requires distinct { AreDistinct (map cow_str_bytes texts.now) }
    requires links { AreOf (map cow_str_bytes texts.now) (links_in others.old.links) }
    ensures widened { Widened (map cow_str_bytes texts.now) (links_in others.old.links) (links_in others.new.links) }
    ensures slotted { OnOk result (AreSlotted (map cow_str_bytes texts.now) slots.new (links_in others.new.links)) }
    ensures found { OnOk result (AreFound (map cow_str_bytes texts.now) slots.new (links_in others.new.links) (length texts.now)) }
    ensures long { length slots.new ≡ length slots.old }
{
    for number in 0..texts.len() {
        place(slots, others, texts[number].as_str(), number as u32)?;
    }
    Ok(())
}

/// Gives a text a number, in the first of its slots that is free, else in the ordered map. Without memory nothing changes.
fn place(
    slots: &mut [u32],
    others: &mut TextNumbers,
    text: &str,
    number: u32,
) -> Result<(), AllocError>
    requires small { number < 4294967295 }
    requires room { 16 ≤ length slots.old }
    ensures ok { OnOk result (Places slots.old slots.new (links_in others.old.links) (links_in others.new.links) text.now number) }
    ensures slots { OnErr result (slots.new ≡ slots.old) }
    ensures kept { OnErr result (IsKept (links_in others.old.links) (links_in others.new.links)) }
{
    let first = first_slot(text, slots.len());
    if let Some(at) = free_slot(slots, first) {
        slots[at] = number + 1;
        return Ok(());
    }
    others.insert(text, number)
}

/// The first slot that is free of those that a text may be in.
fn free_slot(slots: &[u32], first: usize) -> Option<usize>
    requires { first + 16 ≤ length slots.now }
    ensures { MatchOption result (AreTaken slots.now first (first + 16)) (λ at. (first ≤ at) × (at < first + 16) × (slice_index slots.now at ≡ 0) × AreTaken slots.now first at) }
{
    for at in first..first + NEAR {
        if slots[at] == FREE {
            return Some(at);
        }
    }
    None
}

/// The first of the slots that a text may be in, among so many.
fn first_slot(text: &str, slots: usize) -> usize
    ensures place { result ≡ first_of text.now slots }
    ensures within { result + 16 ≤ max 16 slots }
{
    let places = slots.saturating_sub(NEAR - 1).max(1);
    (hash(text) / HALF % places as u64) as usize
}

/// A hash of a text. Its upper half depends on each byte.
fn hash(text: &str) -> u64
    ensures { result ≡ hash_of text.now }
{
    let mut hash: u64 = 1;
    for byte in text.as_bytes() {
        hash = hash.wrapping_add(*byte as u64).wrapping_mul(FACTOR);
    }
    hash
}
