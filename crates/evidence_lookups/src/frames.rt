//! Frames: the scopes for which they stand, and the frames around them.
ghost use Rattle.std.specs.Prelude.{◌≡◌, ◌<◌, MatchBool, Some, is_some, length, map, option_and_then, option_map};
ghost use Rattle.guard_syntax.specs.code.Seen.{expr_list, see_body, see_expr, see_part, see_query, see_step};
ghost use Rattle.guard_syntax.specs.Syntax.{File};
ghost use Rattle.rule_names.specs.Pieces.{piece_at};
ghost use Rattle.evidence_rules.specs.CitedLines.{args_at, args_of_part, around_site, called_body, file_frame, outer_frame, outwards, scope_of, scope_of_part, scope_of_piece, scope_of_step};
ghost use Rattle.evidence_rules.specs.Follows.{IsFileFrame, home_for, is_body};
ghost use Rattle.rule_meaning.specs.Places.{step_in, steps_in};
ghost use Rattle.evidence_lookups.specs.code.Grounds.{file_in, known_of, lines_of};

use crate::line_context::LineContext;
use evidence_lines::{LineKind, LineList, LinePlace};
use guard_syntax::{Body, Expr, Part, Query, Step, StepForm};
use rule_names::Piece;

/// The scope for which a frame stands, by its site.
pub fn scope_of(context: &LineContext<'_, '_, '_>, frame: u64) -> Option<u32>
    ensures { result ≡ scope_of (file_in context.now) (lines_of context.now) frame }
{
    let Some(place) = context.lines.place_at(frame) else {
        return None;
    };
    match place.kind {
        LineKind::File => Some(0),
        LineKind::Frame => match place.site {
            Some(site) => scope_at(context, site),
            None => None,
        },
        _ => None,
    }
}

/// The scope that the part of a site is, if it is one.
fn scope_at(context: &LineContext<'_, '_, '_>, site: u32) -> Option<u32>
    ensures { result ≡ option_and_then (scope_of_piece (file_in context.now) site) (piece_at (file_in context.now) site) }
{
    match context.find(site) {
        Some(Piece::Body(_)) => Some(site),
        Some(Piece::Step { query, index }) => scope_of_step(site, query, index),
        Some(Piece::Part(part)) => scope_of_part(context, site, part),
        _ => None,
    }
}

/// The scope that the step of an index is.
pub(crate) fn scope_of_step(site: u32, query: &Query, index: usize) -> Option<u32>
    ensures { (f : File) → result ≡ scope_of_step f site (step_in (steps_in (see_query query.now)) index) }
{
    match query.steps.get(index) {
        Some(step) => scope_of_filter(site, step),
        None => None,
    }
}

/// The scope that a step is: a filter is one.
fn scope_of_filter(site: u32, step: &Step) -> Option<u32>
    ensures { (f : File) → result ≡ scope_of_step f site (Some (see_step step.now)) }
{
    match step.form {
        StepForm::Filter(_, _) => Some(site),
        _ => None,
    }
}

/// The scope that a part is: a call is that of the called body.
fn scope_of_part(context: &LineContext<'_, '_, '_>, site: u32, part: &Part) -> Option<u32>
    ensures { result ≡ scope_of_part (file_in context.now) site (see_part part.now) }
{
    match part {
        Part::Call { .. } => match called_body(context, site) {
            Some(body) => Some(body.site),
            None => None,
        },
        _ => None,
    }
}

/// The body of the rule that the call of a site names.
pub fn called_body<'t>(context: &LineContext<'_, 't, '_>, site: u32) -> Option<&'t Body>
    ensures { option_map (λ body. see_body body.now) result ≡ called_body (file_in context.entry.now) site }
{
    let Some(target) = context.store.file.target(site) else {
        return None;
    };
    match context.find(target) {
        Some(Piece::Rule(rule)) => Some(&rule.body),
        _ => None,
    }
}

/// The arguments of the call of a site.
pub(crate) fn args_at<'t>(context: &LineContext<'_, 't, '_>, site: u32) -> Option<&'t [Expr]>
    ensures { option_map (λ args. expr_list (map see_expr args.now)) result ≡ args_at (file_in context.entry.now) site }
{
    match context.find(site) {
        Some(Piece::Part(part)) => args_of_part(part),
        _ => None,
    }
}

/// The arguments of a part that is a call.
pub(crate) fn args_of_part(part: &Part) -> Option<&[Expr]>
    ensures { option_map (λ args. expr_list (map see_expr args.now)) result ≡ args_of_part (see_part part.entry.now) }
{
    match part {
        Part::Call { args, .. } => Some(args.as_slice()),
        _ => None,
    }
}

/// Whether a frame is a `file` line.
pub fn is_file_frame(context: &LineContext<'_, '_, '_>, frame: u64) -> bool
    ensures { MatchBool result (IsFileFrame (known_of context.now) (lines_of context.now) frame) (IsFileFrame (known_of context.now) (lines_of context.now) frame → ⊥) }
{
    match context.lines.kind_at(frame) {
        Some(kind) => kind == LineKind::File,
        None => false,
    }
}

/// The frame around a frame; around a called body it is the file's.
fn outer_frame(context: &LineContext<'_, '_, '_>, frame: u64) -> Option<u64>
    ensures { result ≡ outer_frame (file_in context.now) (lines_of context.now) frame }
{
    let Some(place) = context.lines.place_at(frame) else {
        return None;
    };
    match place.kind {
        LineKind::Frame => around_site(context, frame, place),
        _ => None,
    }
}

/// The frame around a `frame` line.
fn around_site(context: &LineContext<'_, '_, '_>, frame: u64, place: LinePlace) -> Option<u64>
    ensures { result ≡ around_site (file_in context.now) (lines_of context.now) frame place.frame (option_and_then (args_at (file_in context.now)) place.site) }
{
    if is_call(context, place.site) {
        return file_frame(&context.lines, frame);
    }
    place.frame
}

/// Whether the part of a site is the call of a rule.
fn is_call(context: &LineContext<'_, '_, '_>, site: Option<u32>) -> bool
    ensures { result ≡ is_some (option_and_then (args_at (file_in context.now)) site) }
{
    match site {
        Some(site) => args_at(context, site).is_some(),
        None => false,
    }
}

/// The `file` line to which a frame comes by frame fields. Each names an earlier line where lines follow, so there are at
/// most as many steps as lines.
fn file_frame(lines: &LineList<'_>, frame: u64) -> Option<u64>
    ensures { (f : File) → result ≡ file_frame f lines.now (length lines.now) frame }
{
    let mut at = frame;
    let mut most = lines.len();
    while most > 0 {
        let Some(place) = lines.place_at(at) else {
            return None;
        };
        match place.kind {
            LineKind::File => return Some(at),
            LineKind::Frame => {}
            _ => return None,
        }
        let Some(further) = place.frame else {
            return None;
        };
        at = further;
        most -= 1;
    }
    None
}

/// The frame so many frames further out.
pub(crate) fn outwards(context: &LineContext<'_, '_, '_>, up: u32, frame: u64) -> Option<u64>
    ensures { result ≡ outwards (file_in context.now) (lines_of context.now) up frame }
{
    let mut at = frame;
    let mut left = up;
    while left > 0 {
        let Some(outer) = outer_frame(context, at) else {
            return None;
        };
        at = outer;
        left -= 1;
    }
    Some(at)
}

/// The scope in which a line of a kind and site is evaluated.
pub fn home_for(context: &LineContext<'_, '_, '_>, kind: LineKind, site: u32) -> u32
    requires { site < length (file_in context.now).places }
    ensures { result ≡ home_for (file_in context.now) kind site }
{
    match kind {
        LineKind::Conj => {
            if is_body(context, site) {
                site
            } else {
                context.store.file.home(site)
            }
        }
        _ => context.store.file.home(site),
    }
}

/// Whether the part of a site is a body.
fn is_body(context: &LineContext<'_, '_, '_>, site: u32) -> bool
    ensures { result ≡ is_body (piece_at (file_in context.now) site) }
{
    match context.find(site) {
        Some(Piece::Body(_)) => true,
        _ => false,
    }
}
