//! The names of keys.
ghost use Rattle.std.specs.Prelude.{◌≡◌, ◌<◌, [], ◌++◌, length, None, IfOk, OnErr, slice_index_or};
ghost use Rattle.std.specs.Cow.{cow_str_bytes};
ghost use Rattle.key_names.specs.code.Names.{name_of, texts_of, IsTable, IsSame, Adds, Has, Joins};

use crate::name_slots::NameSlots;
use std::alloc::{AllocError, Global};
use std::borrow::CowStr;
use std::mem;

/// The most names: a name's number has 32 bits.
const NAMES: usize = 4294967295;

/// The names of the keys of a tree, each of which has a number.
///
/// A document repeats a few names in a few orders, so the name that followed a name the last time is most often the next
/// one, and a comparison of bytes tells. Only else the name is looked up by its bytes.
#[derive(Drop)]
pub struct Names<'s> {
    /// The text of each name, by its number.
    pub texts: Vec<CowStr<'s>>,
    pub numbers: NameSlots,
    /// The number of the name that followed each the last time.
    pub followers: Vec<u32>,
    /// The number of the name that was there last.
    pub before: Option<u32>,
    alloc: Global,
}

impl<'s> Names<'s> {
    /// No names.
    pub fn new(alloc: Global) -> Names<'s>
        ensures table { IsTable result }
        ensures texts { texts_of result ≡ [] }
    {
        Names {
            texts: Vec::new(alloc),
            numbers: NameSlots::new(alloc),
            followers: Vec::new(alloc),
            before: None,
            alloc,
        }
    }

    /// The text of a name.
    pub fn text(&self, number: u32) -> &str
        requires { number < length (texts_of self.now) }
        ensures { result.now ≡ slice_index_or (texts_of self.now) number [] }
    {
        self.texts[number as usize].as_str()
    }

    /// The number of a name by its bytes, if it is known.
    pub fn found(&self, key: &str) -> Option<u32>
        requires { IsTable self.now }
        ensures { result ≡ name_of self.now key.now }
    {
        self.numbers.get(&self.texts, key)
    }

    /// The number of a name, if it is known.
    pub fn number(&self, key: &str) -> Option<u32>
        requires { IsTable self.now }
        ensures { result ≡ name_of self.now key.now }
    {
        if let Some(before) = self.before {
            let guess = self.followers[before as usize];
            if self.text(guess) == key {
                return Some(guess);
            }
        }
        self.found(key)
    }

    /// A new name, whose text is taken. Without memory, and where no more can be counted, nothing changes.
    pub fn add(&mut self, text: &mut CowStr<'s>) -> Result<u32, AllocError>
        requires table { IsTable self.old }
        requires new { name_of self.old (cow_str_bytes text.old) ≡ None }
        ensures ok { IfOk result (λ n. (n ≡ length (texts_of self.old)) × Adds self.old self.new (cow_str_bytes text.old)) }
        ensures err { OnErr result (IsSame self.old self.new × (cow_str_bytes text.new ≡ cow_str_bytes text.old)) }
    {
        let count = self.texts.len();
        if NAMES <= count {
            return Err(AllocError);
        }
        self.texts.reserve(1)?;
        self.followers.reserve(1)?;
        self.numbers.insert(&self.texts, text.as_str())?;
        self.followers.push_reserved(0);
        self.texts
            .push_reserved(mem::replace(text, CowStr::Borrowed("")));
        Ok(count as u32)
    }

    /// A name is there once more, behind the one that was there last.
    pub fn follow(&mut self, number: u32)
        requires table { IsTable self.old }
        requires within { number < length (texts_of self.old) }
        ensures table { IsTable self.new }
        ensures texts { texts_of self.new ≡ texts_of self.old }
    {
        let before = self.before;
        self.before = Some(number);
        if let Some(before) = before {
            self.followers[before as usize] = number;
        }
    }

    /// The number of a name, which it gets here if it is new. It is the one that was there last then.
    pub fn note(&mut self, text: &str) -> Result<u32, AllocError>
        requires { IsTable self.old }
        ensures { IfOk result (λ n. Has self.old self.new text.now n) }
    {
        let number = self.known(text)?;
        self.follow(number);
        Ok(number)
    }

    /// The number of a name, which it gets here if it is new.
    fn known(&mut self, text: &str) -> Result<u32, AllocError>
        requires { IsTable self.old }
        ensures { IfOk result (λ n. Has self.old self.new text.now n) }
    {
        if let Some(number) = self.number(text) {
            return Ok(number);
        }
        let mut owned = CowStr::Owned(String::from_str(self.alloc, text)?);
        self.add(&mut owned)
    }

    /// Takes in the names of another table: for each of them, by its number there, its number here.
    pub fn join(&mut self, other: Names<'s>) -> Result<Vec<u32>, AllocError>
        requires table { IsTable self.old }
        requires other { IsTable other }
        ensures { IfOk result (λ numbers. Joins self.old other.entry self.new numbers.items) }
    {
        let Names {
            texts,
            numbers: _,
            followers: _,
            before: _,
            alloc,
        } = other;
        let mut joined = Vec::new(alloc);
        for text in texts {
            joined.push(self.take_in(text)?)?;
        }
        Ok(joined)
    }

    /// The number of a name, which is moved into the table if it is new there.
    fn take_in(&mut self, mut text: CowStr<'s>) -> Result<u32, AllocError>
        requires { IsTable self.old }
        ensures { IfOk result (λ n. Has self.old self.new (cow_str_bytes text.entry) n) }
    {
        if let Some(number) = self.found(text.as_str()) {
            return Ok(number);
        }
        self.add(&mut text)
    }

    /// The same with texts of its own.
    pub fn detach(self, alloc: Global) -> Result<Names<'static>, AllocError>
        requires { IsTable self }
        ensures { IfOk result (λ names. IsTable names × (texts_of names ≡ texts_of self.entry)) }
    {
        let Names {
            texts,
            numbers,
            followers,
            before,
            alloc: _,
        } = self;
        let mut owned = Vec::new(alloc);
        for text in texts {
            owned.push(CowStr::Owned(text.into_owned(alloc)?))?;
        }
        Ok(Names {
            texts: owned,
            numbers,
            followers,
            before,
            alloc,
        })
    }
}
