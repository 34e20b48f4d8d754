//! Each part of a rule file, noted at its own site.
ghost use Rattle.std.specs.Prelude.{◌≡◌, ◌<◌, length, map, slice_set};
ghost use Rattle.guard_syntax.specs.code.Seen.{see_file, see_let, see_rule, see_body, see_conds, see_opt_conds, see_disj, see_part, see_query, see_form, see_expr, see_opt_expr, let_list, disj_list, part_list, expr_list};
ghost use Rattle.rule_names.specs.Pieces.{pieces_file, pieces_rules, pieces_body, pieces_lets, pieces_conds, pieces_opt_conds, pieces_disjs, pieces_parts, pieces_part, pieces_query, pieces_expr, pieces_opt_expr, pieces_exprs};
ghost use Rattle.rule_names.specs.code.Forms.{pieces_form};
ghost use Rattle.rule_names.specs.code.PieceTables.{with_piece, with_pieces};
ghost use Rattle.rule_names.specs.code.Seen.{see_piece};

use crate::piece::Piece;
use crate::siblings::HasSite;
use guard_syntax::{Body, Conds, Disj, Expr, Let, Part, Query, RawFile, Rule, StepForm};

/// Notes a part at its site. A site that the table does not have changes nothing.
fn note<'f>(site: u32, piece: Piece<'f>, table: &mut Vec<Piece<'f>>)
    ensures { map see_piece table.new.items ≡ with_piece (map see_piece table.old.items) (site, see_piece piece.entry) }
{
    let index = site as usize;
    if index < table.len() {
        put(table, index, piece);
    }
}

/// Puts an item in the place of another. It is generic, since of a table whose type names a lifetime nothing would be
/// known behind a borrow of an item.
fn put<T: Copy>(items: &mut Vec<T>, index: usize, item: T)
    requires { index < length items.old.items }
    ensures { items.new.items ≡ slice_set items.old.items index item }
{
    items[index] = item;
}

/// Notes a body and what is in it.
#[cycle(pieces)]
fn in_body<'f>(body: &'f Body, table: &mut Vec<Piece<'f>>)
    ensures { map see_piece table.new.items ≡ with_pieces (map see_piece table.old.items) (pieces_body (see_body body.now)) }
{
    note(body.site, Piece::Body(body), table);
    in_lets(&body.lets, table);
    in_disjs(&body.parts, table);
}

/// Notes lets and their expressions.
#[cycle(pieces)]
fn in_lets<'f>(lets: &'f [Let], table: &mut Vec<Piece<'f>>)
    ensures { map see_piece table.new.items ≡ with_pieces (map see_piece table.old.items) (pieces_lets (let_list (map see_let lets.now))) }
{
    for given in lets {
        note(given.site, Piece::Let(given), table);
        in_expr(&given.value, table);
    }
}

/// Notes conditions and what is in them.
#[cycle(pieces)]
fn in_conds<'f>(conds: &'f Conds, table: &mut Vec<Piece<'f>>)
    ensures { map see_piece table.new.items ≡ with_pieces (map see_piece table.old.items) (pieces_conds (see_conds conds.now)) }
{
    note(conds.site, Piece::Conds(conds), table);
    in_disjs(&conds.parts, table);
}

/// Notes conditions, if there are any.
#[cycle(pieces)]
fn in_opt_conds<'f>(conds: &'f Option<Conds>, table: &mut Vec<Piece<'f>>)
    ensures { map see_piece table.new.items ≡ with_pieces (map see_piece table.old.items) (pieces_opt_conds (see_opt_conds conds.now)) }
{
    match conds {
        Some(conds) => in_conds(conds, table),
        None => {}
    }
}

/// Notes disjunctions and their parts.
#[cycle(pieces)]
fn in_disjs<'f>(disjs: &'f [Disj], table: &mut Vec<Piece<'f>>)
    ensures { map see_piece table.new.items ≡ with_pieces (map see_piece table.old.items) (pieces_disjs (disj_list (map see_disj disjs.now))) }
{
    for disj in disjs {
        note(disj.site, Piece::Disj(disj), table);
        in_parts(&disj.parts, table);
    }
}

/// Notes parts that are joined by `or`.
#[cycle(pieces)]
fn in_parts<'f>(parts: &'f [Part], table: &mut Vec<Piece<'f>>)
    ensures { map see_piece table.new.items ≡ with_pieces (map see_piece table.old.items) (pieces_parts (part_list (map see_part parts.now))) }
{
    for part in parts {
        in_part(part, table);
    }
}

/// Notes a part and what is in it.
#[cycle(pieces)]
fn in_part<'f>(part: &'f Part, table: &mut Vec<Piece<'f>>)
    ensures { map see_piece table.new.items ≡ with_pieces (map see_piece table.old.items) (pieces_part (see_part part.now)) }
{
    note(part.site(), Piece::Part(part), table);
    match part {
        Part::Block { head, body, .. } => {
            in_query(head, table);
            in_body(body, table)
        }
        Part::When { cond, body, .. } => {
            in_conds(cond, table);
            in_body(body, table)
        }
        Part::Kinds { cond, body, .. } => {
            in_opt_conds(cond, table);
            in_body(body, table)
        }
        Part::Test { left, right, .. } => {
            in_query(left, table);
            in_opt_expr(right, table)
        }
        Part::Refer { .. } => {}
        Part::Call { args, .. } => in_exprs(args, table),
    }
}

/// Notes a query and its steps.
#[cycle(pieces)]
fn in_query<'f>(query: &'f Query, table: &mut Vec<Piece<'f>>)
    ensures { map see_piece table.new.items ≡ with_pieces (map see_piece table.old.items) (pieces_query (see_query query.now)) }
{
    note(query.site, Piece::Query(query), table);
    let steps = query.steps.as_slice();
    for index in 0..steps.len() {
        let step = &steps[index];
        note(step.site, Piece::Step { query, index }, table);
        in_form(&step.form, table);
    }
}

/// Notes what is in a step.
#[cycle(pieces)]
fn in_form<'f>(form: &'f StepForm, table: &mut Vec<Piece<'f>>)
    ensures { map see_piece table.new.items ≡ with_pieces (map see_piece table.old.items) (pieces_form (see_form form.now)) }
{
    match form {
        StepForm::Filter(_, conds) => in_conds(conds, table),
        StepForm::Keys { right, .. } => in_expr(right, table),
        StepForm::This => {}
        StepForm::Var(_) => {}
        StepForm::Key(_) => {}
        StepForm::Index(_) => {}
        StepForm::Every => {}
        StepForm::Items => {}
        StepForm::Splice(_) => {}
    }
}

/// Notes an expression and what is in it.
#[cycle(pieces)]
fn in_expr<'f>(expr: &'f Expr, table: &mut Vec<Piece<'f>>)
    ensures { map see_piece table.new.items ≡ with_pieces (map see_piece table.old.items) (pieces_expr (see_expr expr.now)) }
{
    match expr {
        Expr::Literal { site, .. } => note(*site, Piece::Expr(expr), table),
        Expr::Function { site, args, .. } => {
            note(*site, Piece::Expr(expr), table);
            in_exprs(args, table)
        }
        Expr::Query(query) => in_query(query, table),
        Expr::Found { site, query } => {
            note(*site, Piece::Expr(expr), table);
            in_query(query, table)
        }
    }
}

/// Notes the right side of a test, if it has one.
#[cycle(pieces)]
fn in_opt_expr<'f>(expr: &'f Option<Expr>, table: &mut Vec<Piece<'f>>)
    ensures { map see_piece table.new.items ≡ with_pieces (map see_piece table.old.items) (pieces_opt_expr (see_opt_expr expr.now)) }
{
    match expr {
        Some(expr) => in_expr(expr, table),
        None => {}
    }
}

/// Notes arguments.
#[cycle(pieces)]
fn in_exprs<'f>(exprs: &'f [Expr], table: &mut Vec<Piece<'f>>)
    ensures { map see_piece table.new.items ≡ with_pieces (map see_piece table.old.items) (pieces_exprs (expr_list (map see_expr exprs.now))) }
{
    for expr in exprs {
        in_expr(expr, table);
    }
}

/// Notes rules, their conditions and their bodies.
fn in_rules<'f>(rules: &'f [Rule], table: &mut Vec<Piece<'f>>)
    ensures { map see_piece table.new.items ≡ with_pieces (map see_piece table.old.items) (pieces_rules (map see_rule rules.now)) }
{
    for rule in rules {
        note(rule.site, Piece::Rule(rule), table);
        in_opt_conds(&rule.cond, table);
        in_body(&rule.body, table);
    }
}

/// Notes a file, whose site is 0, and what is in it.
pub(crate) fn in_file<'f>(file: &'f RawFile, table: &mut Vec<Piece<'f>>)
    ensures { map see_piece table.new.items ≡ with_pieces (map see_piece table.old.items) (pieces_file (see_file file.now)) }
{
    note(0, Piece::File, table);
    in_lets(&file.lets, table);
    in_rules(&file.rules, table);
    in_disjs(&file.loose, table);
}
