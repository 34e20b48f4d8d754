//! Numbers by texts.
ghost use Rattle.std.specs.Prelude.{◌≡◌, ℕ, ◌<◌, ◌^◌, List, None, Some, IfSome, IfOk, OnOk, OnErr, if◌then◌else◌};
ghost use Rattle.std.specs.Str.{bytes_eq};
ghost use Rattle.key_names.specs.code.TextNumbers.{number_in, links_in, link_on, AreFromNodes, AreToNodes, AreSingle, IsKept, Widens};

use std::alloc::{AllocError, Global};
use std::collections::BTreeMap;

/// The most nodes: a node's number has 32 bits.
const NODES: u32 = 4294967295;

/// A word of fifteen bytes is no lower than 2^120, the leading 1 behind them.
const FULL: u128 = 1329227995784915872903807060280344576;

/// A link: the node that it leads from, and its word. A word has up to fifteen bytes, as a number to the base of 256 behind
/// a leading 1, so that equal words have equal bytes.
pub type Link = (u32, u128);

/// Numbers by texts. A text is looked up fifteen bytes at a time.
///
/// A link of fifteen bytes leads to another node, which has a number, and one of fewer gives the number of the text that ends
/// with it. So no text is kept, what is compared are numbers that lie in the map itself, and whatever the texts are, each
/// takes one look-up for every fifteen of its bytes, and one more.
#[derive(Drop)]
pub struct TextNumbers {
    pub links: BTreeMap<Link, u32>,
    /// How many nodes there are. The root is 0.
    pub count: u32,
    ghost rooted: { 0 < count },
    ghost from: { AreFromNodes (links_in links) count },
    ghost to: { AreToNodes (links_in links) count },
    ghost single: { AreSingle (links_in links) },
}

impl TextNumbers {
    /// No texts.
    pub fn new(alloc: Global) -> TextNumbers
        ensures { (text : List ℕ) → number_in result.links text ≡ None }
    {
        TextNumbers {
            links: BTreeMap::new(alloc),
            count: 1,
        }
    }

    /// The number of a text.
    pub fn get(&self, text: &str) -> Option<u32>
        ensures { result ≡ number_in self.now.links text.now }
    {
        let mut link = (0, 1);
        for byte in text.as_bytes() {
            link = self.link_on(link, *byte)?;
        }
        self.links.get(&link).copied()
    }

    /// The link behind one byte more, if it is there.
    fn link_on(&self, link: Link, byte: u8) -> Option<Link>
        requires { link.1 < 2 ^ 120 }
        ensures value { result ≡ link_on (links_in self.now.links) link byte }
        ensures short { IfSome result (λ next. next.1 < 2 ^ 120) }
    {
        let longer = (link.0, 256 * link.1 + byte as u128);
        if longer.1 < FULL {
            return Some(longer);
        }
        let node = self.links.get(&longer).copied()?;
        Some((node, 1))
    }

    /// Gives a text a number. Without memory, and where no more nodes can be counted, each text has what it had.
    pub fn insert(&mut self, text: &str, number: u32) -> Result<(), AllocError>
        ensures ok { OnOk result ((k : List ℕ) → number_in self.new.links k ≡ (if bytes_eq text.now k then Some number else number_in self.old.links k)) }
        ensures err { OnErr result (IsKept (links_in self.old.links) (links_in self.new.links)) }
    {
        let mut link = (0, 1);
        for byte in text.as_bytes() {
            link = self.made_on(link, *byte)?;
        }
        match self.links.insert(link, number) {
            Ok(_) => Ok(()),
            Err(_) => Err(AllocError),
        }
    }

    /// The link behind one byte more. The node that it leads from is made here if it is not there.
    fn made_on(&mut self, link: Link, byte: u8) -> Result<Link, AllocError>
        requires inside { link.0 < self.old.count }
        requires short { link.1 < 2 ^ 120 }
        ensures widens { Widens (links_in self.old.links) (links_in self.new.links) }
        ensures next { IfOk result (λ next. link_on (links_in self.new.links) link byte ≡ Some next) }
        ensures inside { IfOk result (λ next. next.0 < self.new.count) }
        ensures short { IfOk result (λ next. next.1 < 2 ^ 120) }
    {
        if let Some(next) = self.link_on(link, byte) {
            return Ok(next);
        }
        let node = self.count;
        if node == NODES {
            return Err(AllocError);
        }
        match self
            .links
            .insert((link.0, 256 * link.1 + byte as u128), node)
        {
            Ok(_) => {}
            Err(_) => return Err(AllocError),
        }
        self.count = node + 1;
        Ok((node, 1))
    }
}
