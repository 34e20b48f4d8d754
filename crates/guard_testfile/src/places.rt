//! Where the nodes of a tree stand, one after another.
ghost use Rattle.std.specs.Prelude.{◌≡◌, IfOk};
ghost use Rattle.doc_values.specs.Tree.{IsTree, size};
ghost use Rattle.guard_testfile.specs.Shape.{place_of};
ghost use Rattle.guard_testfile.specs.code.Places.{ArePlaces};

use crate::place::{Place, inside};
use doc_values::{Cursor, Doc};
use std::alloc::{AllocError, Global};

/// Where each node of a tree stands.
pub(crate) fn places_of(alloc: Global, doc: &Doc<'_>) -> Result<Vec<Place>, AllocError>
    ensures { IfOk result (λ places. ArePlaces doc.now (size doc.now) places.items) }
{
    let count = doc.len();
    let mut places = Vec::new(alloc);
    for id in 0..count {
        let node = doc.cursor(id);
        let place = place_behind(&places, &node);
        places.push(place)?;
    }
    Ok(places)
}

/// Where a node stands, by where those before it do.
fn place_behind(places: &[Place], node: &Cursor<'_, '_>) -> Place
    requires tree { IsTree node.now.doc.now }
    requires places { ArePlaces node.now.doc.now node.now.id places.now }
    ensures { result ≡ place_of node.now.doc.now node.now.id }
{
    match node.parent() {
        None => Place::Cases,
        Some(above) => inside(places[above.id as usize], node),
    }
}
