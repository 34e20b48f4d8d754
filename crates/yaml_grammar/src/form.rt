//! What nodes stand in.

/// What a node stands in: the innermost open collection, if one is open.
#[derive(Clone, Copy)]
pub enum Form {
    /// No collection: the node is the root.
    Root,
    /// Brackets, of a map or of a list.
    Flow {
        map: bool,
    },
    /// A tag in flow, with the place of its `!`.
    FlowTagged {
        at: usize,
    },
    /// A block sequence, whose entries begin at a column.
    Items {
        column: usize,
    },
    /// A block mapping, whose entries begin at a column.
    Entries {
        column: usize,
    },
    /// A tag outside of flow, with the place of its `!`, the least column of a line below that may hold its node, and
    /// whether a sequence may stand one column less, at that of a key.
    Tagged {
        at: usize,
        above: usize,
        shares: bool,
    },
}
