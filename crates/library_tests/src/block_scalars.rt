//! Block scalars: where one ends, and the place of a refusal.
use crate::scalars::Wanted::{Refused, Text};
use crate::scalars::{BLOCK, Row, TOP};

/// Scalars behind other text, and the place of a fault there.
pub(crate) const BEHIND_A_KEY: &[Row] = &[
    (
        BLOCK,
        "k: |+1\n   x\n\n\nl: >\n a\n  b\n c\n",
        3,
        Text("  x\n\n\n", 14),
    ),
    (
        BLOCK,
        "k: |+1\n   x\n\n\nl: >\n a\n  b\n c\n",
        17,
        Text("a\n b\nc\n", 29),
    ),
    (BLOCK, "a: |", 3, Refused(4)),
    (BLOCK, "- |\n  \n text", 2, Refused(8)),
];

/// Scalars that end where a document goes on with what it is refused for.
pub(crate) const ENDS: &[Row] = &[
    (BLOCK, "|\n  a\n b\n", 0, Text("a\n", 6)),
    (BLOCK, ">\n  a\n b", 0, Text("a\n", 6)),
    (BLOCK, "|\n a\n\r", 0, Text("a\n", 5)),
    (TOP, "|\n a\nb\n", 0, Text("a\n", 5)),
    (TOP, "|1\na\n", 0, Text("", 3)),
    (TOP, "|1+\n\na", 0, Text("\n", 5)),
    (TOP, "|\na\n---\nb", 0, Text("a\n", 4)),
    (TOP, "|\na\n... \nb", 0, Text("a\n", 4)),
    (TOP, "|\na\n---", 0, Text("a\n", 4)),
    (TOP, "|\n---\n", 0, Text("", 2)),
    (TOP, "|+\n\n---\n", 0, Text("\n", 4)),
    (TOP, ">\na\n--- b", 0, Text("a\n", 4)),
    (TOP, "|1\n---\n", 0, Text("", 3)),
];
