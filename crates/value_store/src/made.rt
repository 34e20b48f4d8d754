//! Trees that function calls made.
ghost use Rattle.std.specs.Prelude.{◌≡◌, ◌++◌, ◌∷◌, ℕ, [], Option, None, Some, MatchOption, IfSome, OnOk, OnErr, false};
ghost use Rattle.doc_values.specs.Tree.{Forest};
ghost use Rattle.rule_meaning.specs.StoreModel.{Made, made_at};
ghost use Rattle.rule_meaning.specs.Values.{has_pattern};

use doc_values::Doc;
use indexmap::IndexMap;
use std::alloc::{AllocError, Global};
use std::marker::Model;

/// Where a tree was made: the line of the evidence that the call wrote, and its row there from 0.
#[derive(Clone, Copy, PartialEq, Eq, Hash)]
struct Place {
    line: u64,
    row: u64,
}

/// Trees that function calls made, by their lines and rows; contracts see them as a list in the order in which they came.
#[derive(Drop)]
pub struct MadeTrees {
    trees: IndexMap<Place, Doc<'static>>,
}

impl Model for MadeTrees {
    ghost use Rattle.std.specs.Prelude.{◌≡◌, List, map, All, false};
    ghost use Rattle.std.specs.Coded.{coded_list};
    ghost use Rattle.rule_meaning.specs.code.StoreCode.{made_code};
    ghost use Rattle.rule_meaning.specs.StoreModel.{Made};
    ghost use Rattle.rule_meaning.specs.Values.{has_pattern};

    ghost Value = { List Made };

    ghost coded = { coded_list made_code };

    ghost view = { λ t. map (λ p. record { line = p.0.line; row = p.0.row; tree = p.1 }) t.trees.entries };

    ghost invariant = { λ t. All (λ p. has_pattern p.1 ≡ false) t.trees.entries };
}

impl MadeTrees {
    /// No trees.
    pub fn new(alloc: Global) -> MadeTrees
        ensures { result ≡ [] }
    {
        MadeTrees {
            trees: IndexMap::new(alloc),
        }
    }

    /// Adds the tree of a line and a row that have none. It is dropped on a refusal.
    pub fn add(&mut self, line: u64, row: u64, tree: Doc<'static>) -> Result<(), AllocError>
        requires absent { made_at self.old line row ≡ None }
        requires plain { has_pattern tree ≡ false }
        ensures ok { OnOk result (self.new ≡ self.old ++ record { line = line; row = row; tree = tree.entry } ∷ []) }
        ensures err { OnErr result (self.new ≡ self.old) }
    {
        self.trees.insert(Place { line, row }, tree)?;
        Ok(())
    }

    /// The tree of a line and a row.
    pub fn get(&self, line: u64, row: u64) -> Option<&Doc<'static>>
        ensures tree { MatchOption result (made_at self.now line row ≡ None) (λ tree. made_at self.now line row ≡ Some tree.now) }
        ensures plain { IfSome result (λ tree. has_pattern tree.now ≡ false) }
    {
        self.trees.get(&Place { line, row })
    }
}
