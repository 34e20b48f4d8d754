//! The values of frames.
ghost use Rattle.std.specs.Prelude.{◌≡◌, ℕ, true, Some, MatchBool};
ghost use Rattle.guard_syntax.specs.code.Seen.{see_body};
ghost use Rattle.rule_names.specs.Pieces.{OfBody, piece_at};
ghost use Rattle.rule_meaning.specs.StoreModel.{is_known_ref};
ghost use Rattle.rule_meaning.specs.Roots.{root_ref};
ghost use Rattle.value_store.specs.code.Stores.{see_store};
ghost use Rattle.evidence_rules.specs.CitedLines.{value_of};
ghost use Rattle.evidence_rules.specs.Follows.{IsFrameOf};
ghost use Rattle.evidence_lookups.specs.code.Grounds.{file_in, known_of, lines_of};
ghost use Rattle.evidence_lookups.specs.code.Owned.{HasOwned, IsOwned};

use crate::frames::{args_of_part, scope_of_step};
use crate::line_context::LineContext;
use crate::lookup::value_of;
use crate::owners::Owner;
use evidence_lines::LineList;
use guard_syntax::{Body, Origin, Ref};
use rule_names::Piece;
use value_store::Store;

/// Whether a frame in a frame may have a value, by its site: that of a filter's candidate any, and that of a call the value
/// of the frame around it.
pub fn is_frame_of(context: &LineContext<'_, '_, '_>, frame: u64, site: u32, value: Ref) -> bool
    ensures follows { MatchBool result
        (IsFrameOf (known_of context.now) (lines_of context.now) frame (piece_at (file_in context.now) site) value)
        (IsFrameOf (known_of context.now) (lines_of context.now) frame (piece_at (file_in context.now) site) value → ⊥) }
    ensures known { result ≡ true → is_known_ref (known_of context.now) value ≡ true }
{
    // A tree has a root, as `len` says.
    let _nodes = context.store.doc.len();
    match context.find(site) {
        Some(Piece::Body(body)) => is_frame_of_body(context, frame, site, body, value),
        Some(Piece::Step { query, index }) => match scope_of_step(site, query, index) {
            Some(_) => is_known(context.store, value),
            None => false,
        },
        Some(Piece::Part(part)) => match args_of_part(part) {
            Some(_) => has_value(&context.lines, frame, value),
            None => false,
        },
        _ => false,
    }
}

/// Whether the frame of a body may have a value, by the one that the body belongs to.
fn is_frame_of_body(
    context: &LineContext<'_, '_, '_>,
    frame: u64,
    site: u32,
    body: &Body,
    value: Ref,
) -> bool
    requires placed { piece_at (file_in context.now) site ≡ Some (OfBody (see_body body.now)) }
    ensures { MatchBool result
        (IsFrameOf (known_of context.now) (lines_of context.now) frame (Some (OfBody (see_body body.now))) value)
        (IsFrameOf (known_of context.now) (lines_of context.now) frame (Some (OfBody (see_body body.now))) value → ⊥) }
{
    if is_frame_of_owned(context, Owner::Rule, frame, body, value) {
        return true;
    }
    if is_frame_of_owned(context, Owner::When, frame, body, value) {
        return true;
    }
    is_frame_of_owned(context, Owner::Block, frame, body, value)
}

/// Whether a body has such an owner and its frame may have a value: that of a rule's body the root of the template, that of
/// a `when` block the value of the frame around it, and that of a block or a type block any.
fn is_frame_of_owned(
    context: &LineContext<'_, '_, '_>,
    owner: Owner,
    frame: u64,
    body: &Body,
    value: Ref,
) -> bool
    requires placed { (site : ℕ) × (piece_at (file_in context.now) site ≡ Some (OfBody (see_body body.now))) }
    ensures { MatchBool result
        (IsOwned (known_of context.now) (lines_of context.now) owner (see_body body.now) × HasOwned (known_of context.now) (lines_of context.now) owner frame value)
        (IsOwned (known_of context.now) (lines_of context.now) owner (see_body body.now) × HasOwned (known_of context.now) (lines_of context.now) owner frame value → ⊥) }
{
    if !context.tables.owners.owns(owner, body.site) {
        return false;
    }
    match owner {
        Owner::Rule => is_root(value),
        Owner::When => has_value(&context.lines, frame, value),
        Owner::Block => is_known(context.store, value),
    }
}

/// Whether a value is the root of the template.
fn is_root(value: Ref) -> bool
    ensures { MatchBool result (value ≡ root_ref) (value ≡ root_ref → ⊥) }
{
    let root = Ref {
        origin: Origin::Template,
        node: 0,
        key: false,
    };
    is_same(value, root)
}

/// Whether a frame has a value.
fn has_value(lines: &LineList<'_>, frame: u64, value: Ref) -> bool
    ensures { MatchBool result (value_of lines.now frame ≡ Some value) (value_of lines.now frame ≡ Some value → ⊥) }
{
    match value_of(lines, frame) {
        Some(said) => is_same(said, value),
        None => false,
    }
}

/// Whether two references are the same.
fn is_same(said: Ref, value: Ref) -> bool
    ensures { MatchBool result (said ≡ value) (said ≡ value → ⊥) }
{
    said == value
}

/// Whether the store knows a value.
fn is_known(store: &Store<'_, '_>, value: Ref) -> bool
    ensures { result ≡ is_known_ref (see_store store.now) value }
{
    store.view(value).is_some()
}
