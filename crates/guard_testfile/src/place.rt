//! Where a value of a tests file stands.
ghost use Rattle.std.specs.Prelude.{◌≡◌, ℕ};
ghost use Rattle.doc_values.specs.Places.{label_at};
ghost use Rattle.report_text.specs.Paths.{ToEntry, ToItem, step_to};
ghost use Rattle.guard_testfile.specs.Shape as shape;

use doc_values::Cursor;

/// What a value of a tests file is there for.
#[derive(Clone, Copy)]
pub enum Place {
    /// The list of all cases.
    Cases,
    Case,
    /// The name of a case.
    Name,
    /// What a case expects.
    Expectations,
    /// What it expects of rules.
    Rules,
    /// The verdict that it expects of the rule of the key.
    Verdict,
    /// An input, a value in one, or a value that stands where it may not.
    Free,
}

/// Where a value stands that stands in another: by where that stands, and by its key.
pub(crate) fn inside(place: Place, node: &Cursor<'_, '_>) -> Place
    ensures { (i : ℕ) → result ≡ shape.inside place (step_to i (label_at node.now.doc.now node.now.id).key) }
{
    match node.key() {
        Some(key) => under(place, key),
        None => among(place),
    }
}

/// Where the entry of a key stands.
fn under(place: Place, key: &str) -> Place
    ensures { result ≡ shape.inside place (ToEntry key.now) }
{
    match place {
        Place::Case => in_case(key),
        Place::Expectations => in_expectations(key),
        Place::Rules => Place::Verdict,
        _ => Place::Free,
    }
}

/// Where an item stands.
fn among(place: Place) -> Place
    ensures { (i : ℕ) → result ≡ shape.inside place (ToItem i) }
{
    match place {
        Place::Cases => Place::Case,
        _ => Place::Free,
    }
}

/// Where the entry of a key of a case stands.
fn in_case(key: &str) -> Place
    ensures { result ≡ shape.in_case key.now }
{
    if key == "name" {
        return Place::Name;
    }
    if key == "expectations" {
        return Place::Expectations;
    }
    Place::Free
}

/// Where the entry of a key of what a case expects stands.
fn in_expectations(key: &str) -> Place
    ensures { result ≡ shape.in_expectations key.now }
{
    if key == "rules" {
        return Place::Rules;
    }
    Place::Free
}
