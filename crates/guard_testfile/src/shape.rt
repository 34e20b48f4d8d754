//! Whether a value of a tests file is as it has to be where it stands.
ghost use Rattle.std.specs.Prelude.{◌≡◌, MatchOption, if◌then◌else◌};
ghost use Rattle.doc_values.specs.Places.{kids_at, label_at};
ghost use Rattle.doc_values.specs.Tree as tree;
ghost use Rattle.doc_values.specs.Tree.{size};
ghost use Rattle.guard_testfile.specs.Refusals.{BreaksShape, HasShape};
ghost use Rattle.guard_testfile.specs.Shape as shape;
ghost use Rattle.guard_testfile.specs.code.Places.{ArePlaces};

use crate::place::Place;
use doc_values::{Cursor, Doc, Kind};
use guard_syntax::Verdict;

/// The first node that is not as it has to be, by where each stands.
pub(crate) fn first_unshaped(doc: &Doc<'_>, places: &[Place]) -> Option<u32>
    requires { ArePlaces doc.now (size doc.now) places.now }
    ensures { MatchOption result (HasShape doc.now) (BreaksShape doc.now) }
{
    for id in 0..doc.len() {
        let node = doc.cursor(id);
        if !is_shaped(places[id as usize], &node) {
            return Some(id);
        }
    }
    None
}

/// Whether a value is as it has to be.
fn is_shaped(place: Place, node: &Cursor<'_, '_>) -> bool
    ensures { result ≡ shape.is_shaped place (label_at node.now.doc.now node.now.id) (kids_at node.now.doc.now node.now.id) }
{
    match place {
        Place::Cases => is_list(node.kind()),
        Place::Case => is_case(node),
        Place::Name => is_text(node.kind()),
        Place::Expectations => is_expectations(node),
        Place::Rules => is_map(node.kind()),
        Place::Verdict => is_verdict(node),
        Place::Free => true,
    }
}

/// Whether a value is a map with the keys of a case.
fn is_case(node: &Cursor<'_, '_>) -> bool
    ensures { result ≡ shape.is_shaped Place.Case (label_at node.now.doc.now node.now.id) (kids_at node.now.doc.now node.now.id) }
{
    if !is_map(node.kind()) {
        return false;
    }
    if !has_key(node, "input") {
        return false;
    }
    if !has_key(node, "expectations") {
        return false;
    }
    has_only(Place::Case, node)
}

/// Whether a value is a map with the key of what a case expects.
fn is_expectations(node: &Cursor<'_, '_>) -> bool
    ensures { result ≡ shape.is_shaped Place.Expectations (label_at node.now.doc.now node.now.id) (kids_at node.now.doc.now node.now.id) }
{
    if !is_map(node.kind()) {
        return false;
    }
    if !has_key(node, "rules") {
        return false;
    }
    has_only(Place::Expectations, node)
}

/// Whether a value is the word of a verdict.
fn is_verdict(node: &Cursor<'_, '_>) -> bool
    ensures { result ≡ shape.is_shaped Place.Verdict (label_at node.now.doc.now node.now.id) (kids_at node.now.doc.now node.now.id) }
{
    verdict_at(node).is_some()
}

/// The verdict of a value that is the word of one.
pub(crate) fn verdict_at(node: &Cursor<'_, '_>) -> Option<Verdict>
    ensures { result ≡ (if shape.is_text (label_at node.now.doc.now node.now.id).kind then shape.verdict_named (label_at node.now.doc.now node.now.id).text else None) }
{
    match node.kind() {
        Kind::Text => verdict_named(node.text()),
        _ => None,
    }
}

/// The verdict of a word.
fn verdict_named(word: &str) -> Option<Verdict>
    ensures { result ≡ shape.verdict_named word.now }
{
    if word == "PASS" {
        return Some(Verdict::Pass);
    }
    if word == "FAIL" {
        return Some(Verdict::Fail);
    }
    if word == "SKIP" {
        return Some(Verdict::Skip);
    }
    None
}

/// Whether a value has an entry with a key.
fn has_key(node: &Cursor<'_, '_>, key: &str) -> bool
    ensures { result ≡ tree.has_key (kids_at node.now.doc.now node.now.id) key.now }
{
    match node.get(key) {
        Some(_) => true,
        None => false,
    }
}

/// Whether each value in one has a key that it may have.
fn has_only(place: Place, node: &Cursor<'_, '_>) -> bool
    ensures { result ≡ shape.has_only place (kids_at node.now.doc.now node.now.id) }
{
    for i in 0..node.len() {
        let inner = node.child(i);
        if !may_have(place, &inner) {
            return false;
        }
    }
    true
}

/// Whether a value has a key that may stand there.
fn may_have(place: Place, node: &Cursor<'_, '_>) -> bool
    ensures { result ≡ shape.may_have place (label_at node.now.doc.now node.now.id).key }
{
    match node.key() {
        Some(key) => may_have_key(place, key),
        None => may_have_none(place),
    }
}

/// Whether a key may stand there.
fn may_have_key(place: Place, key: &str) -> bool
    ensures { result ≡ shape.may_have place (Some key.now) }
{
    match place {
        Place::Case => is_key_of_case(key),
        Place::Expectations => key == "rules",
        _ => true,
    }
}

/// Whether a case may have a key.
fn is_key_of_case(key: &str) -> bool
    ensures { result ≡ shape.may_have Place.Case (Some key.now) }
{
    if key == "input" {
        return true;
    }
    if key == "expectations" {
        return true;
    }
    key == "name"
}

/// Whether a value without a key may stand there.
fn may_have_none(place: Place) -> bool
    ensures { result ≡ shape.may_have place None }
{
    match place {
        Place::Case => false,
        Place::Expectations => false,
        _ => true,
    }
}

fn is_list(kind: Kind) -> bool
    ensures { result ≡ shape.is_list kind }
{
    match kind {
        Kind::List => true,
        _ => false,
    }
}

fn is_map(kind: Kind) -> bool
    ensures { result ≡ tree.is_map kind }
{
    match kind {
        Kind::Map => true,
        _ => false,
    }
}

fn is_text(kind: Kind) -> bool
    ensures { result ≡ shape.is_text kind }
{
    match kind {
        Kind::Text => true,
        _ => false,
    }
}
