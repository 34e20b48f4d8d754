//! A tree of JSON by the calls of a cursor, and two laws that only speak of definitions.
use doc_values::{Cursor, Doc, Kind, TEMPLATE_LIMIT};
use json_reader::{place_within, read_json};
use std::alloc::Global;
use yaml_scalars::one_kind;

/// A value: what it is, its text, where it stands in the text and in the tree, and what stands in it.
struct Node {
    kind: &'static str,
    text: &'static str,
    at: u32,
    parent: Option<u32>,
    key: &'static str,
    index: Option<u32>,
    children: &'static [u32],
    /// The child under the key `b`.
    b: Option<u32>,
}

const TEXT: &str = r#"{"a":1,"b":[true,"x"]}"#;

/// The values of the text by their numbers.
const NODES: &[Node] = &[
    Node {
        kind: "map",
        text: "",
        at: 0,
        parent: None,
        key: "",
        index: None,
        children: &[1, 2],
        b: Some(2),
    },
    Node {
        kind: "1",
        text: "",
        at: 5,
        parent: Some(0),
        key: "a",
        index: None,
        children: &[],
        b: None,
    },
    Node {
        kind: "list",
        text: "",
        at: 11,
        parent: Some(0),
        key: "b",
        index: None,
        children: &[3, 4],
        b: None,
    },
    Node {
        kind: "true",
        text: "",
        at: 12,
        parent: Some(2),
        key: "",
        index: Some(0),
        children: &[],
        b: None,
    },
    Node {
        kind: "text",
        text: "x",
        at: 17,
        parent: Some(2),
        key: "",
        index: Some(1),
        children: &[],
        b: None,
    },
];

/// The tree of a text, which outlives it.
fn tree_of(alloc: Global, text: &str) -> Option<Doc<'static>> {
    if TEMPLATE_LIMIT < text.len() {
        return None;
    }
    match read_json(alloc, text) {
        Ok(tree) => tree.detach(alloc).ok(),
        Err(_) => None,
    }
}

/// Whether a value has this kind and text, and this key if it has one.
fn is_value(value: &Cursor<'_, '_>, node: &Node) -> bool {
    let (kind, text) = match value.kind() {
        Kind::Map => ("map", ""),
        Kind::Whole(1) => ("1", ""),
        Kind::List => ("list", ""),
        Kind::Truth(true) => ("true", ""),
        Kind::Text => ("text", value.text()),
        _ => return false,
    };
    let key = value.key();
    kind == node.kind
        && text == node.text
        && key.unwrap_or("") == node.key
        && key.is_some() != node.key.is_empty()
}

/// Whether a value stands here.
fn is_placed(value: &Cursor<'_, '_>, node: &Node) -> bool {
    let parent = match value.parent() {
        Some(parent) => Some(parent.id),
        None => None,
    };
    value.at() == node.at && value.index() == node.index && parent == node.parent
}

/// Whether these stand in a value, in order and by a key.
fn has_children(value: &Cursor<'_, '_>, node: &Node) -> bool {
    for (index, id) in node.children.iter().enumerate() {
        if value.len() <= index || value.child(index).id != *id {
            return false;
        }
    }
    let b = match value.get("b") {
        Some(b) => Some(b.id),
        None => None,
    };
    value.len() == node.children.len() && b == node.b
}

#[test]
fn cursors_tell_a_tree(rt: HostRuntime) {
    let tree = tree_of(rt.alloc(), TEXT).expect(&rt, "a tree");
    assert!(rt; tree.len() == 5);
    for (id, node) in NODES.iter().enumerate() {
        assert!(rt; id < tree.len() as usize);
        let value = tree.cursor(id as u32);
        assert!(rt; is_value(&value, node), "{id}");
        assert!(rt;
            is_placed(&value, node) && has_children(&value, node),
            "{id}"
        );
    }
}

/// The calls do nothing.
#[test]
fn laws() {
    place_within("[");
    one_kind("~");
}
