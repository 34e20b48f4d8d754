//! What the next tokens say of the rule that reads on.
ghost use Rattle.std.specs.Prelude.{◌≡◌};
ghost use Rattle.literal_parser.specs.code.Parser.{Read};
ghost use Rattle.literal_parser.specs.code.Reads.{Reads, itself, state_of, source};
ghost use Rattle.literal_parser.specs.code.TokenClasses.{wants};
ghost use Rattle.part_parser.specs.code.Leads as spec;

use literal_parser::{Cursor, Halt, TokenTest, Tokens};

/// How a condition begins.
#[derive(Clone, Copy)]
pub(crate) enum Lead {
    /// With a query, of whose values any has to pass, or each.
    Query { any: bool },
    /// With the name of a rule.
    Rule { not: bool },
}

/// What an expression is, by how it begins.
#[derive(Clone, Copy)]
pub(crate) enum ExprForm {
    /// With a keyword that can only be the name of a function.
    Word,
    Literal,
    Function,
    Query,
}

/// A name begins a query, by what stands behind it, or is a rule's.
#[tactic(auto, unfolding(crate::specs::code::Leads::lead_by_name, literal_parser::specs::code::Parser::choose_next, literal_parser::specs::code::Parser::choose_third))]
fn lead_by_name(tokens: Tokens<'_>, cursor: &mut Cursor, behind: TokenTest) -> Lead
    ensures { spec.lead_by_name (source tokens.entry) (wants behind) (state_of cursor.old) cursor.old.seen ≡ Read result (state_of cursor.new) cursor.new.seen }
{
    if cursor.sees_next(tokens, behind) {
        return Lead::Query { any: false };
    }
    if !cursor.sees_next(tokens, TokenTest::Neg) {
        return Lead::Rule { not: false };
    }
    if cursor.sees_third(tokens, TokenTest::Operator) {
        return Lead::Query { any: false };
    }
    Lead::Rule { not: false }
}

/// How a condition begins, where a name that begins a query has such a token behind it. The word or the mark before the
/// query or the name is taken.
#[tactic(auto, unfolding(crate::specs::code::Leads::lead_of, literal_parser::specs::code::Parser::choose))]
pub(crate) fn lead_of(
    tokens: Tokens<'_>,
    cursor: &mut Cursor,
    behind: TokenTest,
) -> Result<Lead, Halt>
    ensures { Reads itself (spec.lead_of (source tokens.entry) (wants behind) (state_of cursor.old) cursor.old.seen) result cursor.new }
{
    if cursor.sees(tokens, TokenTest::Some) {
        cursor.takes(tokens, TokenTest::Some)?;
        return Ok(Lead::Query { any: true });
    }
    if cursor.sees(tokens, TokenTest::Neg) {
        cursor.takes(tokens, TokenTest::Neg)?;
        return Ok(Lead::Rule { not: true });
    }
    if cursor.sees(tokens, TokenTest::Name) {
        return Ok(lead_by_name(tokens, cursor, behind));
    }
    if cursor.sees(tokens, TokenTest::Start) {
        return Ok(Lead::Query { any: false });
    }
    Err(Halt::Dead(cursor.seen))
}

/// What an expression is.
#[tactic(auto, unfolding(crate::specs::code::Leads::expr_form, literal_parser::specs::code::Parser::choose, literal_parser::specs::code::Parser::choose_pair, literal_parser::specs::code::Parser::choose_next))]
pub(crate) fn expr_form(tokens: Tokens<'_>, cursor: &mut Cursor) -> ExprForm
    ensures { spec.expr_form (source tokens.entry) (state_of cursor.old) cursor.old.seen ≡ Read result (state_of cursor.new) cursor.new.seen }
{
    if cursor.sees(tokens, TokenTest::FunctionWord) {
        return ExprForm::Word;
    }
    if !cursor.sees(tokens, TokenTest::AnyName) {
        if cursor.sees(tokens, TokenTest::Plain) {
            return ExprForm::Literal;
        }
        return ExprForm::Query;
    }
    if cursor.sees_range(tokens) {
        return ExprForm::Literal;
    }
    if cursor.sees_next(tokens, TokenTest::LParen) {
        return ExprForm::Function;
    }
    if cursor.sees(tokens, TokenTest::Constant) {
        return ExprForm::Literal;
    }
    ExprForm::Query
}
