//! Rule files whose names are as they must be.
ghost use Rattle.std.specs.Prelude.{◌≡◌, ◌<◌, ◌≤◌, ℕ, List, length, Some, option_map, slice_get};
ghost use Rattle.guard_syntax.specs.code.Queries.{QueriesBegin};
ghost use Rattle.guard_syntax.specs.code.Seen.{see_file};
ghost use Rattle.rule_names.specs.code.Begun.{QueriesBegin-prop};
ghost use Rattle.rule_names.specs.Depths.{depth_at, depth_limit, depth_piece, depths_of};
ghost use Rattle.rule_names.specs.EnclosingScopes.{home_of, homes_of};
ghost use Rattle.rule_names.specs.Resolution.{bind_of, resolution_of, target_of};
ghost use Rattle.rule_names.specs.WellNamed.{WellNamed};
ghost use Rattle.rule_names.specs.code.Order.{IsOrderOf};
ghost use Rattle.rule_names.specs.Pieces.{piece_at, AreInOrder};
ghost use Rattle.rule_names.specs.code.Seen.{see_piece};

use crate::bind::{Bind, Link};
use crate::find::in_file;
use crate::piece::Piece;
use guard_syntax::RawFile;

/// A rule file whose names are as they must be, with its parts by their sites, how deep they are, and an order in which
/// its rules can be judged.
#[derive(Drop)]
pub struct RuleFile {
    pub raw: RawFile,
    pub homes: Vec<u32>,
    pub links: Vec<Option<Link>>,
    /// The Depth of each rule, query, step and expression by its site; 0 at any other site.
    pub depths: Vec<u8>,
    pub judged: Vec<u32>,
    pub ghost sites: { AreInOrder (see_file raw) },
    pub ghost begins: { QueriesBegin (see_file raw) } by { QueriesBegin-prop (see_file raw) },
    pub ghost named: { WellNamed (see_file raw) },
    pub ghost homed: { homes.items ≡ homes_of (see_file raw) },
    pub ghost linked: { links.items ≡ resolution_of (see_file raw) },
    pub ghost measured: { depths.items ≡ depths_of (see_file raw) },
    pub ghost ordered: { IsOrderOf (see_file raw) judged.items },
}

impl RuleFile {
    /// The syntax of the file.
    pub fn raw(&self) -> &RawFile
        ensures { result.now ≡ self.now.raw }
    {
        &self.raw
    }

    /// The byte offset of the first byte of a site's part.
    pub fn place(&self, site: u32) -> u32
        requires { site < length (see_file self.now.raw).places }
        ensures { slice_get (see_file self.now.raw).places site ≡ Some result }
    {
        self.raw.places.as_slice()[site as usize]
    }

    /// The part of a site.
    pub fn piece(&self, site: u32) -> Piece<'_>
        requires { site < length (see_file self.now.raw).places }
        ensures { piece_at (see_file self.entry.now.raw) site ≡ Some (see_piece result) }
    {
        let Some(piece) = in_file(&self.raw, site) else {
            unreachable!()
        };
        piece
    }

    /// The part of a site, if there is one.
    pub fn find(&self, site: u32) -> Option<Piece<'_>>
        ensures { option_map see_piece result ≡ piece_at (see_file self.entry.now.raw) site }
    {
        in_file(&self.raw, site)
    }

    /// The site of the scope in which the part of a site stands: 0 for the file, a body, or the step of a filter. A body
    /// stands in the scope around it.
    pub fn home(&self, site: u32) -> u32
        requires { site < length (see_file self.now.raw).places }
        ensures { result ≡ home_of (see_file self.now.raw) site }
    {
        self.homes.as_slice()[site as usize]
    }

    /// What the use of a variable at a site means; a site where no variable is used has no bind.
    pub fn bind(&self, site: u32) -> Option<Bind>
        ensures { result ≡ bind_of (see_file self.now.raw) site }
    {
        match self.links.get(site as usize) {
            Some(Some(Link::Variable(bind))) => Some(*bind),
            _ => None,
        }
    }

    /// The site of the rule that is named by the reference or call of a site; any other site has no target.
    pub fn target(&self, site: u32) -> Option<u32>
        ensures { result ≡ target_of (see_file self.now.raw) site }
    {
        match self.links.get(site as usize) {
            Some(Some(Link::Rule(rule))) => Some(*rule),
            _ => None,
        }
    }

    /// The Depth of the rule, query, step or expression of a site: how deep its meaning leads, through what names mean. A
    /// step has that of its query up to it; any other part has 0.
    pub fn depth(&self, site: u32) -> u8
        requires { site < length (see_file self.now.raw).places }
        ensures table { result ≡ depth_at (see_file self.now.raw) (depths_of (see_file self.now.raw)) site }
        ensures part { result ≡ depth_piece (see_file self.now.raw) (depths_of (see_file self.now.raw)) (piece_at (see_file self.now.raw) site) }
        ensures most { result ≤ depth_limit }
    {
        self.depths.as_slice()[site as usize]
    }

    /// The sites of the rules without parameters, none in front of a rule that it reaches, and then 0 if parts stand
    /// outside rules.
    pub fn order(&self) -> &[u32]
        ensures { IsOrderOf (see_file self.now.raw) result.now }
    {
        self.judged.as_slice()
    }
}
