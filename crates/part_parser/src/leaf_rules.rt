//! The rules of the grammar that hold no other parts.
ghost use Rattle.std.specs.Prelude.{◌≡◌, ◌≤◌};
ghost use Rattle.guard_syntax.specs.declared.syntax.Op.{Op};
ghost use Rattle.guard_syntax.specs.code.Seen.{see_step, see_expr};
ghost use Rattle.literal_parser.specs.Forms.{is_binary};
ghost use Rattle.literal_parser.specs.code.TokenClasses.{wants};
ghost use Rattle.literal_parser.specs.code.Reads.{Reads, itself, state_of, source};
ghost use Rattle.part_parser.specs.code.GrammarReads.{tree_expr_at, dotted_at, items_at, closed_index_at, start_at};
ghost use Rattle.part_parser.specs.code.Reading as spec;

use guard_syntax::{Expr, Name, Op, Step, StepForm, Text};
use literal_parser::literal::literal;
use literal_parser::{Cursor, Halt, TokenTest, Tokens};
use std::alloc::Global;

/// A name and a bar, or nothing.
#[tactic(auto, unfolding(crate::specs::code::Reading::capture, crate::specs::code::Reading::named_bar, literal_parser::specs::code::Parser::choose, literal_parser::specs::code::Parser::choose_next))]
pub(crate) fn capture(
    alloc: Global,
    tokens: Tokens<'_>,
    cursor: &mut Cursor,
) -> Result<Option<Name>, Halt>
    ensures { Reads itself (spec.capture (source tokens.entry) (state_of cursor.old) cursor.old.seen) result cursor.new }
{
    if !cursor.sees(tokens, TokenTest::Name) {
        return Ok(None);
    }
    if !cursor.sees_next(tokens, TokenTest::Bar) {
        return Ok(None);
    }
    let name = cursor.has_name(alloc, tokens, TokenTest::Name)?;
    cursor.takes(tokens, TokenTest::Bar)?;
    Ok(Some(name))
}

/// A note, or nothing.
#[tactic(auto, unfolding(crate::specs::code::Reading::note, literal_parser::specs::code::Parser::choose))]
pub(crate) fn note(
    alloc: Global,
    tokens: Tokens<'_>,
    cursor: &mut Cursor,
) -> Result<Option<Text>, Halt>
    ensures { Reads itself (spec.note (source tokens.entry) (state_of cursor.old) cursor.old.seen) result cursor.new }
{
    if !cursor.sees(tokens, TokenTest::Note) {
        return Ok(None);
    }
    let text = cursor.has_text(alloc, tokens, TokenTest::Note)?;
    Ok(Some(text))
}

/// `!` or `not`, or nothing.
#[tactic(auto, unfolding(crate::specs::code::Reading::neg, literal_parser::specs::code::Parser::choose))]
fn neg(tokens: Tokens<'_>, cursor: &mut Cursor) -> Result<bool, Halt>
    ensures { Reads itself (spec.neg (source tokens.entry) (state_of cursor.old) cursor.old.seen) result cursor.new }
{
    if !cursor.sees(tokens, TokenTest::Neg) {
        return Ok(false);
    }
    cursor.takes(tokens, TokenTest::Neg)?;
    Ok(true)
}

/// The word of an operator, negated or not.
#[tactic(auto, unfolding(crate::specs::code::Reading::worded))]
fn worded(tokens: Tokens<'_>, cursor: &mut Cursor, want: TokenTest) -> Result<(Op, bool), Halt>
    ensures { Reads itself (spec.worded (source tokens.entry) (wants want) (state_of cursor.old) cursor.old.seen) result cursor.new }
{
    let not = neg(tokens, cursor)?;
    let op = cursor.has_operator(tokens, want)?;
    Ok((op, not))
}

/// The operator of a test.
#[tactic(auto, unfolding(crate::specs::code::Reading::operator, literal_parser::specs::code::Parser::choose))]
pub(crate) fn operator(tokens: Tokens<'_>, cursor: &mut Cursor) -> Result<(Op, bool), Halt>
    ensures { Reads itself (spec.operator (source tokens.entry) (state_of cursor.old) cursor.old.seen) result cursor.new }
{
    if cursor.sees(tokens, TokenTest::Comparison) {
        return cursor.has_sign(tokens, TokenTest::Comparison);
    }
    worded(tokens, cursor, TokenTest::Operator)
}

/// The operator of a filter on keys.
#[tactic(auto, unfolding(crate::specs::code::Reading::keys_operator, literal_parser::specs::code::Parser::choose))]
pub(crate) fn keys_operator(tokens: Tokens<'_>, cursor: &mut Cursor) -> Result<(Op, bool), Halt>
    ensures { Reads itself (spec.keys_operator (source tokens.entry) (state_of cursor.old) cursor.old.seen) result cursor.new }
{
    if cursor.sees(tokens, TokenTest::Equality) {
        return cursor.has_sign(tokens, TokenTest::Equality);
    }
    worded(tokens, cursor, TokenTest::In)
}

/// Whether an operator has a right side.
pub(crate) fn is_binary(op: Op) -> bool
    ensures { result ≡ is_binary op }
{
    matches!(op, Op::Eq | Op::Lt | Op::Le | Op::Gt | Op::Ge | Op::Within)
}

/// A step behind a dot.
#[tactic(auto, unfolding(crate::specs::code::Reading::dotted, literal_parser::specs::code::Parser::choose))]
pub(crate) fn dotted(
    alloc: Global,
    tokens: Tokens<'_>,
    cursor: &mut Cursor,
    site: u32,
) -> Result<Step, Halt>
    ensures { Reads see_step (dotted_at tokens.entry site (state_of cursor.old) cursor.old.seen) result cursor.new }
{
    cursor.takes(tokens, TokenTest::Dot)?;
    if cursor.sees(tokens, TokenTest::Star) {
        cursor.takes(tokens, TokenTest::Star)?;
        return Ok(Step {
            site,
            form: StepForm::Every,
        });
    }
    if cursor.sees(tokens, TokenTest::Index) {
        let index = cursor.has_index(tokens)?;
        return Ok(Step {
            site,
            form: StepForm::Index(index),
        });
    }
    if cursor.sees(tokens, TokenTest::Var) {
        let name = cursor.has_name(alloc, tokens, TokenTest::Var)?;
        return Ok(Step {
            site,
            form: StepForm::Splice(name),
        });
    }
    let name = cursor.has_text(alloc, tokens, TokenTest::Key)?;
    Ok(Step {
        site,
        form: StepForm::Key(name),
    })
}

/// `[*]`, behind its bracket.
pub(crate) fn all_items(tokens: Tokens<'_>, cursor: &mut Cursor, site: u32) -> Result<Step, Halt>
    ensures { Reads see_step (items_at tokens.entry site (state_of cursor.old) cursor.old.seen) result cursor.new }
{
    cursor.takes(tokens, TokenTest::Star)?;
    cursor.takes(tokens, TokenTest::RBracket)?;
    Ok(Step {
        site,
        form: StepForm::Items,
    })
}

/// An index in brackets, behind the first.
pub(crate) fn numbered_item(
    tokens: Tokens<'_>,
    cursor: &mut Cursor,
    site: u32,
) -> Result<Step, Halt>
    ensures { Reads see_step (closed_index_at tokens.entry site (state_of cursor.old) cursor.old.seen) result cursor.new }
{
    let index = cursor.has_index(tokens)?;
    cursor.takes(tokens, TokenTest::RBracket)?;
    Ok(Step {
        site,
        form: StepForm::Index(index),
    })
}

/// The start of a query.
#[tactic(auto, unfolding(literal_parser::specs::code::Parser::choose))]
pub(crate) fn start_step(
    alloc: Global,
    tokens: Tokens<'_>,
    cursor: &mut Cursor,
) -> Result<Step, Halt>
    ensures { Reads see_step (start_at tokens.entry (state_of cursor.old) cursor.old.seen) result cursor.new }
{
    let site = cursor.opens(tokens)?;
    if cursor.sees(tokens, TokenTest::This) {
        cursor.takes(tokens, TokenTest::This)?;
        return Ok(Step {
            site,
            form: StepForm::This,
        });
    }
    if cursor.sees(tokens, TokenTest::Var) {
        let name = cursor.has_text(alloc, tokens, TokenTest::Var)?;
        return Ok(Step {
            site,
            form: StepForm::Var(name),
        });
    }
    let name = cursor.has_text(alloc, tokens, TokenTest::FirstKey)?;
    Ok(Step {
        site,
        form: StepForm::Key(name),
    })
}

/// A literal.
#[tactic(auto, unfolding(crate::specs::code::Reading::tree_expr))]
pub(crate) fn tree_expr(
    alloc: Global,
    tokens: Tokens<'_>,
    cursor: &mut Cursor,
    depth: usize,
) -> Result<Expr, Halt>
    requires room { depth ≤ 128 }
    ensures { Reads see_expr (tree_expr_at tokens.entry depth (state_of cursor.old) cursor.old.seen) result cursor.new }
{
    let site = cursor.opens(tokens)?;
    let tree = literal(alloc, tokens, cursor, depth)?;
    Ok(Expr::Literal { site, tree })
}
