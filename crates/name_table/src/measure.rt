//! Depths, as far as those are known of what names mean. Each is counted up to one above the limit: all that is asked is
//! whether it is above.
ghost use Rattle.std.specs.Prelude.{◌≡◌, suc, ◌+◌};
ghost use Rattle.guard_syntax.specs.code.Seen.{see_file};
ghost use Rattle.rule_names.specs.Depths.{capped, depth_at, depth_bound, depth_target, larger};
ghost use Rattle.rule_names.specs.Resolution.{bind_of, resolution_of, target_of};
ghost use Rattle.name_table.specs.code.Measured.{noted};

use guard_syntax::RawFile;
use rule_names::{Bind, Link};

/// The greatest Depth that an item may have.
pub(crate) const DEPTH_LIMIT: u8 = 200;

/// What the names of a file mean, and the Depths that are known of it, by site.
#[derive(Drop)]
pub(crate) struct Measure<'m> {
    pub file: &'m RawFile,
    pub links: &'m [Option<Link>],
    pub depths: &'m [u8],
    pub ghost linked: { links.now ≡ resolution_of (see_file file.now) },
}

impl<'m> Measure<'m> {
    /// The Depth that is known at a site; 0 where the table has no such site.
    fn at(&self, site: u32) -> u8
        ensures { result ≡ depth_at (see_file self.now.file.now) self.now.depths.now site }
    {
        self.depths.get(site as usize).copied().unwrap_or(0)
    }

    /// The Depth of what the variable means that is used at a site. A parameter counts where its argument is written.
    pub fn bound(&self, site: u32) -> u8
        ensures { result ≡ depth_bound (see_file self.now.file.now) self.now.depths.now (bind_of (see_file self.now.file.now) site) }
    {
        match self.links.get(site as usize) {
            Some(Some(Link::Variable(Bind::Value { site, .. }))) => self.at(*site),
            Some(Some(Link::Variable(Bind::Capture { step, .. }))) => self.at(*step),
            _ => 0,
        }
    }

    /// The Depth of the rule that the reference or call at a site names.
    pub fn target(&self, site: u32) -> u8
        ensures { result ≡ depth_target (see_file self.now.file.now) self.now.depths.now (target_of (see_file self.now.file.now) site) }
    {
        match self.links.get(site as usize) {
            Some(Some(Link::Rule(rule))) => self.at(*rule),
            _ => 0,
        }
    }
}

/// One more than a Depth.
pub(crate) fn deeper(depth: u8) -> u8
    ensures { result ≡ capped (suc depth) }
{
    if depth < DEPTH_LIMIT {
        depth + 1
    } else {
        DEPTH_LIMIT + 1
    }
}

/// One more than two Depths together.
pub(crate) fn deeper_by(depth: u8, other: u8) -> u8
    ensures { result ≡ capped (suc (depth + other)) }
{
    deeper(depth.saturating_add(other))
}

/// The greater of two Depths.
pub(crate) fn larger(depth: u8, other: u8) -> u8
    ensures { result ≡ larger depth other }
{
    if depth < other { other } else { depth }
}

/// Notes a Depth at a site. A site that the table does not have changes nothing.
pub(crate) fn note(table: &mut [u8], site: u32, depth: u8)
    ensures { table.new ≡ noted table.old site depth }
{
    let index = site as usize;
    if index < table.len() {
        table[index] = depth;
    }
}
