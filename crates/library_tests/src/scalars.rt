//! Scalars of YAML by the settings that they are read in: where each ends, whether its text is a part of the source, and the
//! place of a refusal, none of which a report tells. The rows of plain scalars stand here.
use crate::scalars::Wanted::{Lent, Made, Refused};
use crate::{block_scalars, quoted};
use doc_values::{Kind, TEMPLATE_LIMIT};
use std::alloc::Global;
use std::borrow::CowStr;
use yaml_scalars::{Scalar, ScalarRefusal, Setting, read_scalar};

/// In block at the top.
pub(crate) const TOP: Setting = Setting {
    parent: -1,
    flow: false,
    one_line: false,
};

/// In block under a parent without indentation.
pub(crate) const BLOCK: Setting = Setting { parent: 0, ..TOP };

/// In block under a parent with an indentation of one.
const INNER: Setting = Setting { parent: 1, ..TOP };

/// Between flow brackets.
pub(crate) const FLOW: Setting = Setting {
    flow: true,
    ..BLOCK
};

/// As a key in block.
pub(crate) const KEY: Setting = Setting {
    one_line: true,
    ..BLOCK
};

/// What is to stand at a place. Each scalar of these tests is a text.
pub(crate) enum Wanted {
    /// A scalar whose text is a part of the source, and its end.
    Lent(&'static str, usize),
    /// A scalar whose text was made, and its end.
    Made(&'static str, usize),
    /// A scalar whose text may be either, and its end.
    Text(&'static str, usize),
    /// No scalar, by this place.
    Refused(u32),
}

/// A setting, a source, the place in it, and what is to stand there.
pub(crate) type Row = (Setting, &'static str, usize, Wanted);

/// Whether a scalar is what is to stand there.
fn is_scalar(scalar: &Scalar<'_>, wanted: &Wanted) -> bool {
    let is_lent = matches!(scalar.text, CowStr::Borrowed(_));
    let (text, end) = match wanted {
        Wanted::Lent(text, end) if is_lent => (*text, *end),
        Wanted::Made(text, end) if !is_lent => (*text, *end),
        Wanted::Text(text, end) => (*text, *end),
        _ => return false,
    };
    matches!(scalar.kind, Kind::Text) && scalar.text.as_str() == text && scalar.end == end
}

/// Whether what is to stand in a source stands there. A place has to begin a character of a text that is short enough.
fn stands(alloc: Global, (setting, source, at, wanted): &Row) -> bool {
    if source.len() <= *at || TEMPLATE_LIMIT < source.len() || !source.is_char_boundary(*at) {
        return false;
    }
    if setting.parent < -1 || setting.parent > TEMPLATE_LIMIT as i32 {
        return false;
    }
    match read_scalar(alloc, *source, *at, *setting) {
        Ok(scalar) => is_scalar(&scalar, wanted),
        Err(ScalarRefusal::Syntax(found)) => matches!(wanted, Wanted::Refused(at) if *at == found),
        Err(_) => false,
    }
}

const TABLES: &[&[Row]] = &[
    ON_A_LINE,
    IN_FLOW,
    OVER_LINES,
    AS_A_KEY,
    NOT_PLAIN,
    quoted::WHOLE,
    quoted::RETURNS,
    quoted::FURTHER_IN,
    block_scalars::BEHIND_A_KEY,
    block_scalars::ENDS,
];

#[test]
fn each_stands_as_it_should(rt: HostRuntime) {
    for rows in TABLES {
        for row in *rows {
            assert!(rt; stands(rt.alloc(), row), "{}", row.1);
        }
    }
}

/// Plain scalars on a line.
const ON_A_LINE: &[Row] = &[
    (TOP, "a", 0, Lent("a", 1)),
    (TOP, "a b \t", 0, Lent("a b", 3)),
    (TOP, "a#b #c", 0, Lent("a#b", 3)),
    (TOP, "a\t#c", 0, Lent("a", 1)),
    (TOP, "a: b", 0, Lent("a", 1)),
    (TOP, "a: b", 3, Lent("b", 4)),
    (TOP, "a:b", 0, Lent("a:b", 3)),
    (TOP, "a :", 0, Lent("a", 1)),
    (TOP, "a , [b] {c}", 0, Lent("a , [b] {c}", 11)),
    (TOP, "-a", 0, Lent("-a", 2)),
    (TOP, "- a", 2, Lent("a", 3)),
    (TOP, "?a :b", 0, Lent("?a :b", 5)),
    (TOP, "a\u{1}\u{7f}b", 0, Lent("a\u{1}\u{7f}b", 4)),
    (TOP, "\u{e9}\u{20ac} x", 0, Lent("\u{e9}\u{20ac} x", 7)),
    (TOP, "----", 0, Lent("----", 4)),
    (TOP, " ---", 1, Lent("---", 4)),
];

/// Plain scalars between flow brackets.
const IN_FLOW: &[Row] = &[
    (FLOW, "[a, b]", 1, Lent("a", 2)),
    (FLOW, "[a, b]", 4, Lent("b", 5)),
    (FLOW, "{a:1}", 1, Lent("a:1", 4)),
    (FLOW, "{a:[1]}", 1, Lent("a", 2)),
    (FLOW, "{a:,b}", 1, Lent("a", 2)),
    (FLOW, "[a\n\t b , c]", 1, Made("a b", 6)),
    (FLOW, "[a\n]", 1, Lent("a", 2)),
    (FLOW, "[a\n\n: b]", 1, Lent("a", 2)),
    (FLOW, "[a\n:b]", 1, Made("a :b", 5)),
    (FLOW, "[a\n# c\n]", 1, Lent("a", 2)),
    (FLOW, "[a #c\n b]", 1, Lent("a", 2)),
    (FLOW, "[a\n\nb]", 1, Made("a\nb", 5)),
    (FLOW, "[---,", 1, Lent("---", 4)),
    (FLOW, "[a\n---\n]", 1, Lent("a", 2)),
];

/// Plain scalars that go on, or do not, in the lines below.
const OVER_LINES: &[Row] = &[
    (TOP, "a\nb", 0, Made("a b", 3)),
    (TOP, "a \n \n\t\n b \nc\n", 0, Made("a\n\nb c", 12)),
    (BLOCK, "a\nb", 0, Lent("a", 1)),
    (BLOCK, "a\n b\n\n", 0, Made("a b", 4)),
    (INNER, "a\n b\n  c", 0, Lent("a", 1)),
    (INNER, "a\n  b\n c", 0, Made("a b", 5)),
    (BLOCK, "a\r\n b\r\n\r\n c\r\n", 0, Made("a b\nc", 11)),
    (BLOCK, "a\n # b\n c", 0, Lent("a", 1)),
    (BLOCK, "a #\n b", 0, Lent("a", 1)),
    (BLOCK, "a\n - b", 0, Made("a - b", 6)),
    (BLOCK, "a\n !b &c \"d", 0, Made("a !b &c \"d", 11)),
    (BLOCK, "a\n \tb", 0, Lent("a", 1)),
    (TOP, "a\n---\nb", 0, Lent("a", 1)),
    (TOP, "a\n...", 0, Lent("a", 1)),
    (TOP, "a\n---b", 0, Made("a ---b", 6)),
    (TOP, "a\n\n---", 0, Lent("a", 1)),
];

/// Plain scalars as keys, which are not typed.
const AS_A_KEY: &[Row] = &[
    (KEY, "a\n b", 0, Lent("a", 1)),
    (KEY, "1: x", 0, Lent("1", 1)),
    (KEY, "a b : c", 0, Lent("a b", 3)),
];

/// Places where no plain scalar stands.
const NOT_PLAIN: &[Row] = &[
    (TOP, " a", 0, Refused(0)),
    (TOP, "\n", 0, Refused(0)),
    (TOP, "# a", 0, Refused(0)),
    (TOP, "@a", 0, Refused(0)),
    (TOP, "`a", 0, Refused(0)),
    (TOP, "%a", 0, Refused(0)),
    (TOP, "]", 0, Refused(0)),
    (TOP, "&a", 0, Refused(0)),
    (TOP, "!a", 0, Refused(0)),
    (TOP, "? a", 0, Refused(1)),
    (TOP, ": a", 0, Refused(1)),
    (TOP, "-", 0, Refused(1)),
    (TOP, "-\n", 0, Refused(1)),
    (TOP, "---", 0, Refused(3)),
    (TOP, "a\n--- ", 2, Refused(5)),
    (TOP, "\u{feff}...\n", 3, Refused(6)),
    (TOP, "-\r", 0, Refused(1)),
    (TOP, ":\r", 0, Refused(1)),
    (TOP, "?\r", 0, Refused(1)),
    (TOP, "-\rx", 0, Refused(1)),
    (TOP, "---\r", 0, Refused(3)),
    (TOP, "...\r", 0, Refused(3)),
    (TOP, "---\rx", 0, Refused(3)),
    (TOP, "a\n---\r", 2, Refused(5)),
    (TOP, " ---\r", 1, Refused(5)),
    (TOP, "----\r", 0, Refused(5)),
    (TOP, "a\n:\r", 0, Refused(3)),
    (TOP, "a\nb:\r", 0, Refused(4)),
    (TOP, "a\n:\rx", 0, Refused(3)),
];
