//! Lines of literals.
ghost use Rattle.std.specs.Prelude.{◌≡◌, IfOk, None, Some};
ghost use Rattle.evidence_lines.specs.declared.line.LineKind.TheVariants as kind;
ghost use Rattle.guard_syntax.specs.code.Seen.{see_expr};
ghost use Rattle.guard_syntax.specs.Syntax as syntax;
ghost use Rattle.rule_names.specs.Pieces.{OfExpr};
ghost use Rattle.rule_meaning.specs.Roots.{literal_ref};
ghost use Rattle.rule_meaning.specs.StoreModel.{literal_at};
ghost use Rattle.engine_states.specs.code.Answers.{AnswersRows, StandsIn};
ghost use Rattle.engine_states.specs.code.States.{IsWhole};
ghost use Rattle.engine_lines.specs.code.Lines.{see_lines};

use crate::engine::EngineLines;
use crate::place::Place;
use doc_values::Doc;
use evidence_lines::{LineKind, Outcome, Rows};
use guard_syntax::{Origin, Ref, Row};
use std::alloc::AllocError;

impl<'t, 's> EngineLines<'t, 's> {
    /// The line of a literal.
    pub fn literal(
        &mut self,
        frame: u64,
        site: u32,
        tree: &'t Doc<'static>,
    ) -> Result<u64, AllocError>
        requires whole { IsWhole (see_lines self.old) }
        requires stands { StandsIn (see_lines self.old) frame (site, OfExpr (syntax.literal site tree.now)) }
        ensures { IfOk result (λ number. AnswersRows (see_lines self.old) (see_lines self.new) frame kind.Literal site number) }
    {
        if let Some(line) = self.found(frame, site) {
            return Ok(line);
        }
        self.keep_literal(site, tree)?;
        self.add_literal(frame, site, tree)
    }

    /// Adds the line of a literal, which has none yet.
    fn add_literal(&mut self, frame: u64, site: u32, tree: &Doc<'static>) -> Result<u64, AllocError>
        requires whole { IsWhole (see_lines self.old) }
        requires stands { StandsIn (see_lines self.old) frame (site, OfExpr (syntax.literal site tree.now)) }
        requires new { (see_lines self.old).parts frame site ≡ None }
        ensures { IfOk result (λ number. AnswersRows (see_lines self.old) (see_lines self.new) frame kind.Literal site number) }
    {
        // A tree has a root, as `len` says: the literal is known.
        let _nodes = tree.len();
        let rows = [Row::Found(root_of_literal(site))];
        self.add(
            Place { frame, site },
            LineKind::Literal,
            Vec::new(self.alloc),
            Outcome::Rows(Rows::new(&rows)),
        )
    }

    /// Keeps the tree of a literal at hand for the comparisons with it.
    fn keep_literal(&mut self, site: u32, tree: &'t Doc<'static>) -> Result<(), AllocError>
        requires { literal_at (see_lines self.old).known.file site ≡ Some tree.now }
        ensures { see_lines self.new ≡ see_lines self.old }
    {
        self.store.keep_literal(site, tree)
    }
}

/// The root of the literal of a site.
fn root_of_literal(site: u32) -> Ref
    ensures { result ≡ literal_ref site }
{
    Ref {
        origin: Origin::Literal(site),
        node: 0,
        key: false,
    }
}
