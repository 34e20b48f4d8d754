//! Quoted scalars: texts that are parts of the source or made, and the place of a refusal.
use crate::scalars::Wanted::{Lent, Made, Refused};
use crate::scalars::{FLOW, KEY, Row, TOP};

/// Scalars that are whole texts.
pub(crate) const WHOLE: &[Row] = &[
    (TOP, "''", 0, Lent("", 2)),
    (TOP, "'a b '", 0, Lent("a b ", 6)),
    (TOP, "' \ta'", 0, Lent(" \ta", 5)),
    (TOP, "'a\\nb\\'", 0, Lent("a\\nb\\", 7)),
    (TOP, "'\"a\": #b'", 0, Lent("\"a\": #b", 9)),
    (TOP, "'\u{1}\u{7f}'", 0, Lent("\u{1}\u{7f}", 4)),
    (
        TOP,
        "'\u{e9}\u{20ac}\u{1f600}'",
        0,
        Lent("\u{e9}\u{20ac}\u{1f600}", 11),
    ),
    (TOP, "'true'", 0, Lent("true", 6)),
    (TOP, "''''", 0, Made("'", 4)),
    (TOP, "'it''s'", 0, Made("it's", 7)),
    (TOP, "'''a'''", 0, Made("'a'", 7)),
    (TOP, "'a''''b'", 0, Made("a''b", 8)),
    (TOP, "'\u{e9}''\u{e9}'", 0, Made("\u{e9}'\u{e9}", 8)),
    (TOP, "\"\"", 0, Lent("", 2)),
    (TOP, "\"a 'b' \"", 0, Lent("a 'b' ", 8)),
    (TOP, "\"12\"", 0, Lent("12", 4)),
    (TOP, "\"\u{20ac}\"", 0, Lent("\u{20ac}", 5)),
    (
        TOP,
        "\"\u{e9}\\x41\u{1f600}\"",
        0,
        Made("\u{e9}A\u{1f600}", 12),
    ),
    (TOP, "\"\\\"a\\\"\"", 0, Made("\"a\"", 7)),
    (TOP, "\"a\\  b\"", 0, Made("a  b", 7)),
];

/// Carriage returns that are no breaks.
pub(crate) const RETURNS: &[Row] = &[
    (FLOW, "'a\n---\rb'", 0, Refused(6)),
    (KEY, "'a\n---\rb'", 0, Refused(2)),
    (FLOW, "\"\n---\r", 0, Refused(5)),
    (KEY, "\"\n---\r", 0, Refused(1)),
    (FLOW, "'\n...\r", 0, Refused(5)),
    (KEY, "'\n...\r", 0, Refused(1)),
];

/// Scalars further in a text.
pub(crate) const FURTHER_IN: &[Row] = &[
    (FLOW, "k: 'x' # c", 3, Lent("x", 6)),
    (FLOW, "a: 'it''s\n  two'\n", 3, Made("it's two", 16)),
    (FLOW, "b: \"q \\\n  r\"", 3, Made("q r", 12)),
    (FLOW, "{\"a\":1}", 1, Lent("a", 4)),
    (FLOW, "\u{feff}'a'", 3, Lent("a", 6)),
    (FLOW, "'a'b", 0, Lent("a", 3)),
    (FLOW, "'a''b", 2, Lent("", 4)),
];
