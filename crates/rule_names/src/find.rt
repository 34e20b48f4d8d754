//! A part by its site. The edge goes from the file down to the part, at each list into the one sibling that begins last
//! at or before the site: a part's sites begin with its own, and the next sibling's are all above them.
ghost use Rattle.std.specs.Prelude.{◌≡◌, ◌++◌, ℕ, List, option_map, map};
ghost use Rattle.guard_syntax.specs.code.Seen.{see_file, see_let, see_rule, see_body, see_conds, see_opt_conds, see_disj, see_part, see_query, see_form, see_expr, see_opt_expr, let_list, disj_list, part_list, expr_list};
ghost use Rattle.guard_syntax.specs.Sites.{sites_file, sites_lets, sites_rule, sites_rules, sites_body, sites_conds, sites_opt_conds, sites_disjs, sites_part, sites_parts, sites_query, sites_expr, sites_exprs, sites_step, merge};
ghost use Rattle.rule_names.specs.Pieces.{piece_in, pieces_file, pieces_lets, pieces_rule, pieces_rules, pieces_body, pieces_conds, pieces_opt_conds, pieces_disjs, pieces_part, pieces_parts, pieces_query, pieces_expr, pieces_exprs};
ghost use Rattle.rule_names.specs.code.Forms.{sites_form, pieces_form};
ghost use Rattle.rule_names.specs.code.IncreasingSites.{IsIncreasing};
ghost use Rattle.rule_names.specs.code.Seen.{see_piece};

use crate::piece::Piece;
use crate::siblings::{HasSite, last_site, last_to};
use guard_syntax::{Body, Conds, Disj, Expr, Let, Part, Query, RawFile, Rule, StepForm};
use std::cmp::max;

/// The part of a site in a body.
#[cycle(find)]
fn in_body<'f>(body: &'f Body, site: u32) -> Option<Piece<'f>>
    requires { IsIncreasing (sites_body (see_body body.now)) }
    ensures { option_map see_piece result ≡ piece_in (pieces_body (see_body body.entry.now)) site }
{
    if body.site == site {
        return Some(Piece::Body(body));
    }
    let lets = body.lets.as_slice();
    let parts = body.parts.as_slice();
    if last_site(lets, site) > last_site(parts, site) {
        match in_lets(lets, site) {
            Some(piece) => Some(piece),
            None => in_disjs(parts, site),
        }
    } else {
        match in_disjs(parts, site) {
            Some(piece) => Some(piece),
            None => in_lets(lets, site),
        }
    }
}

/// The part of a site in lets.
#[cycle(find)]
fn in_lets<'f>(lets: &'f [Let], site: u32) -> Option<Piece<'f>>
    requires { IsIncreasing (sites_lets (let_list (map see_let lets.now))) }
    ensures { option_map see_piece result ≡ piece_in (pieces_lets (let_list (map see_let lets.entry.now))) site }
{
    match last_to(lets, site) {
        Some(index) => {
            let found = &lets[index];
            if found.site == site {
                Some(Piece::Let(found))
            } else {
                in_expr(&found.value, site)
            }
        }
        None => None,
    }
}

/// The part of a site in conditions.
#[cycle(find)]
fn in_conds<'f>(conds: &'f Conds, site: u32) -> Option<Piece<'f>>
    requires { IsIncreasing (sites_conds (see_conds conds.now)) }
    ensures { option_map see_piece result ≡ piece_in (pieces_conds (see_conds conds.entry.now)) site }
{
    if conds.site == site {
        Some(Piece::Conds(conds))
    } else {
        in_disjs(&conds.parts, site)
    }
}

/// The part of a site in disjunctions.
#[cycle(find)]
fn in_disjs<'f>(disjs: &'f [Disj], site: u32) -> Option<Piece<'f>>
    requires { IsIncreasing (sites_disjs (disj_list (map see_disj disjs.now))) }
    ensures { option_map see_piece result ≡ piece_in (pieces_disjs (disj_list (map see_disj disjs.entry.now))) site }
{
    match last_to(disjs, site) {
        Some(index) => {
            let found = &disjs[index];
            if found.site == site {
                Some(Piece::Disj(found))
            } else {
                in_parts(&found.parts, site)
            }
        }
        None => None,
    }
}

/// The part of a site in parts that are joined by `or`.
#[cycle(find)]
fn in_parts<'f>(parts: &'f [Part], site: u32) -> Option<Piece<'f>>
    requires { IsIncreasing (sites_parts (part_list (map see_part parts.now))) }
    ensures { option_map see_piece result ≡ piece_in (pieces_parts (part_list (map see_part parts.entry.now))) site }
{
    match last_to(parts, site) {
        Some(index) => in_part(&parts[index], site),
        None => None,
    }
}

#[cycle(find)]
fn in_part<'f>(part: &'f Part, site: u32) -> Option<Piece<'f>>
    requires { IsIncreasing (sites_part (see_part part.now)) }
    ensures { option_map see_piece result ≡ piece_in (pieces_part (see_part part.entry.now)) site }
{
    if part.site() == site {
        return Some(Piece::Part(part));
    }
    match part {
        Part::Block { head, body, .. } => {
            if body.site <= site {
                in_body(body, site)
            } else {
                in_query(head, site)
            }
        }
        Part::When { cond, body, .. } => {
            if body.site <= site {
                in_body(body, site)
            } else {
                in_conds(cond, site)
            }
        }
        Part::Kinds { cond, body, .. } => {
            if body.site <= site {
                return in_body(body, site);
            }
            match cond {
                Some(conds) => in_conds(conds, site),
                None => None,
            }
        }
        Part::Test { left, right, .. } => match right {
            Some(expr) => {
                if expr.site() <= site {
                    in_expr(expr, site)
                } else {
                    in_query(left, site)
                }
            }
            None => in_query(left, site),
        },
        Part::Refer { .. } => None,
        Part::Call { args, .. } => in_exprs(args, site),
    }
}

/// The part of a site in a query.
#[cycle(find)]
fn in_query<'f>(query: &'f Query, site: u32) -> Option<Piece<'f>>
    requires { IsIncreasing (sites_query (see_query query.now)) }
    ensures { option_map see_piece result ≡ piece_in (pieces_query (see_query query.entry.now)) site }
{
    if query.site == site {
        return Some(Piece::Query(query));
    }
    match last_to(&query.steps, site) {
        Some(index) => {
            let found = &query.steps[index];
            if found.site == site {
                Some(Piece::Step { query, index })
            } else {
                in_form(&found.form, site)
            }
        }
        None => None,
    }
}

/// The part of a site in what a step does.
#[cycle(find)]
fn in_form<'f>(form: &'f StepForm, site: u32) -> Option<Piece<'f>>
    requires { IsIncreasing (sites_form (see_form form.now)) }
    ensures { option_map see_piece result ≡ piece_in (pieces_form (see_form form.entry.now)) site }
{
    match form {
        StepForm::Filter(_, conds) => in_conds(conds, site),
        StepForm::Keys { right, .. } => in_expr(right, site),
        StepForm::This => None,
        StepForm::Var(_) => None,
        StepForm::Key(_) => None,
        StepForm::Index(_) => None,
        StepForm::Every => None,
        StepForm::Items => None,
        StepForm::Splice(_) => None,
    }
}

/// The part of a site in an expression.
#[cycle(find)]
fn in_expr<'f>(expr: &'f Expr, site: u32) -> Option<Piece<'f>>
    requires { IsIncreasing (sites_expr (see_expr expr.now)) }
    ensures { option_map see_piece result ≡ piece_in (pieces_expr (see_expr expr.entry.now)) site }
{
    match expr {
        Expr::Literal { site: own, .. } => {
            if *own == site {
                Some(Piece::Expr(expr))
            } else {
                None
            }
        }
        Expr::Function {
            site: own,
            args,
            ..
        } => {
            if *own == site {
                Some(Piece::Expr(expr))
            } else {
                in_exprs(args, site)
            }
        }
        Expr::Query(query) => in_query(query, site),
        Expr::Found { site: own, query } => {
            if *own == site {
                Some(Piece::Expr(expr))
            } else {
                in_query(query, site)
            }
        }
    }
}

/// The part of a site in arguments.
#[cycle(find)]
fn in_exprs<'f>(exprs: &'f [Expr], site: u32) -> Option<Piece<'f>>
    requires { IsIncreasing (sites_exprs (expr_list (map see_expr exprs.now))) }
    ensures { option_map see_piece result ≡ piece_in (pieces_exprs (expr_list (map see_expr exprs.entry.now))) site }
{
    match last_to(exprs, site) {
        Some(index) => in_expr(&exprs[index], site),
        None => None,
    }
}

/// The part of a site in a rule.
fn in_rule<'f>(rule: &'f Rule, site: u32) -> Option<Piece<'f>>
    requires { IsIncreasing (sites_rule (see_rule rule.now)) }
    ensures { option_map see_piece result ≡ piece_in (pieces_rule (see_rule rule.entry.now)) site }
{
    if rule.site == site {
        return Some(Piece::Rule(rule));
    }
    if rule.body.site <= site {
        return in_body(&rule.body, site);
    }
    match &rule.cond {
        Some(conds) => in_conds(conds, site),
        None => None,
    }
}

/// The part of a site in rules.
fn in_rules<'f>(rules: &'f [Rule], site: u32) -> Option<Piece<'f>>
    requires { IsIncreasing (sites_rules (map see_rule rules.now)) }
    ensures { option_map see_piece result ≡ piece_in (pieces_rules (map see_rule rules.entry.now)) site }
{
    match last_to(rules, site) {
        Some(index) => in_rule(&rules[index], site),
        None => None,
    }
}

/// The part of a site in the rules of a file and the parts outside them.
fn in_items<'f>(file: &'f RawFile, site: u32) -> Option<Piece<'f>>
    requires { IsIncreasing (merge (sites_rules (see_file file.now).rules) (sites_disjs (see_file file.now).loose)) }
    ensures { option_map see_piece result ≡ piece_in (pieces_rules (see_file file.entry.now).rules ++ pieces_disjs (see_file file.entry.now).loose) site }
{
    let rules = file.rules.as_slice();
    let loose = file.loose.as_slice();
    if last_site(rules, site) > last_site(loose, site) {
        match in_rules(rules, site) {
            Some(piece) => Some(piece),
            None => in_disjs(loose, site),
        }
    } else {
        match in_disjs(loose, site) {
            Some(piece) => Some(piece),
            None => in_rules(rules, site),
        }
    }
}

/// The part of a site in a file.
pub fn in_file<'f>(file: &'f RawFile, site: u32) -> Option<Piece<'f>>
    requires { IsIncreasing (sites_file (see_file file.now)) }
    ensures { option_map see_piece result ≡ piece_in (pieces_file (see_file file.entry.now)) site }
{
    if site == 0 {
        return Some(Piece::File);
    }
    let lets = file.lets.as_slice();
    let last_item = max(last_site(&file.rules, site), last_site(&file.loose, site));
    if last_site(lets, site) > last_item {
        match in_lets(lets, site) {
            Some(piece) => Some(piece),
            None => in_items(file, site),
        }
    } else {
        match in_items(file, site) {
            Some(piece) => Some(piece),
            None => in_lets(lets, site),
        }
    }
}
