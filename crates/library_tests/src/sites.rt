//! Texts of rules: the place of each site.
use doc_values::RULES_LIMIT;
use guard_lexer::tokens;
use guard_parser::parse;
use std::alloc::Global;

/// Texts with the places of their sites, in the order of the sites.
const SITES: &[(&str, &[u32])] = &[
    ("", &[0]),
    (" \n", &[2]),
    ("a exists", &[0, 0, 0, 0, 0]),
    ("  a exists", &[2, 2, 2, 2, 2]),
    ("a == b", &[0, 0, 0, 0, 0, 5, 5]),
    ("a in [1, 2] or b", &[0, 0, 0, 0, 0, 5, 15]),
    ("not a <<m>>", &[0, 0, 0]),
    ("this not empty", &[0, 0, 0, 0, 0]),
    ("p(1, count(a))", &[0, 0, 0, 2, 5, 11, 11]),
    ("a.b[0].*.%c[*] !empty", &[0, 0, 0, 0, 0, 1, 3, 6, 8, 11]),
    ("a.0.'k'.when == 1", &[0, 0, 0, 0, 0, 1, 3, 7, 16]),
    ("x[ keys == /^a/ ] exists", &[0, 0, 0, 0, 0, 1, 11]),
    ("x[ k | keys !in %y ] exists", &[0, 0, 0, 0, 0, 1, 16, 16]),
    (
        "a[ x | b == 1 or c exists ].d == 'x'",
        &[0, 0, 0, 0, 0, 1, 7, 7, 7, 7, 7, 12, 17, 17, 17, 27, 33],
    ),
    ("let x = 1", &[0, 0, 8]),
    ("let x := some a.b", &[0, 0, 9, 14, 14, 15]),
    ("rule r1 { a exists }", &[0, 0, 8, 10, 10, 10, 10]),
    (
        "rule r1 when b empty { c }",
        &[0, 0, 13, 13, 13, 13, 13, 21, 23, 23],
    ),
    (
        "rule p(a, b) { %a == %b }",
        &[0, 0, 13, 15, 15, 15, 15, 21, 21],
    ),
    ("some a.b { not c <<m>> }", &[0, 0, 0, 5, 5, 6, 9, 11, 11]),
    (
        "A::B when a exists { b exists }",
        &[0, 0, 0, 10, 10, 10, 10, 10, 19, 21, 21, 21, 21],
    ),
    (
        "when a exists { let y = 1 b == %y }",
        &[0, 0, 0, 5, 5, 5, 5, 5, 14, 16, 24, 26, 26, 26, 26, 31, 31],
    ),
];

/// Whether a text spells a file whose sites have these places.
fn has_sites(alloc: Global, text: &str, places: &[u32]) -> bool {
    if RULES_LIMIT < text.len() {
        return false;
    }
    match tokens(alloc, text) {
        Ok(found) => match parse(alloc, text, &found) {
            Ok(file) => file.places.as_slice() == places,
            Err(_) => false,
        },
        Err(_) => false,
    }
}

#[test]
fn sites_have_their_places(rt: HostRuntime) {
    for (text, places) in SITES {
        assert!(rt; has_sites(rt.alloc(), *text, *places), "{text}");
    }
}
