//! Texts of rules: the span of each token.
use doc_values::RULES_LIMIT;
use guard_lexer::{Token, tokens};
use std::alloc::Global;

/// Texts with the spans of their tokens.
const SPANS: &[(&str, &[(u32, u32)])] = &[
    ("", &[]),
    (" \t\r\n# to the end", &[]),
    ("\u{feff}a", &[(3, 4)]),
    ("a # b\rc\nd", &[(0, 1), (8, 9)]),
    ("r[0,6]", &[(0, 1), (1, 2), (2, 3), (3, 4), (4, 5), (5, 6)]),
    ("1.5.x", &[(0, 3), (3, 4), (4, 5)]),
    ("1.x", &[(0, 1), (1, 2), (2, 3)]),
    ("a.0.1", &[(0, 1), (1, 2), (2, 3), (3, 4), (4, 5)]),
    ("a. 0.1", &[(0, 1), (1, 2), (3, 4), (4, 5), (5, 6)]),
    ("a::b::c", &[(0, 7)]),
    ("a:b", &[(0, 1), (1, 2), (2, 3)]),
    ("a::1", &[(0, 1), (1, 2), (2, 3), (3, 4)]),
    ("a<=b!=c", &[(0, 1), (1, 3), (3, 4), (4, 6), (6, 7)]),
    ("-1.50e-2 'x'", &[(0, 8), (9, 12)]),
];

/// Whether tokens have these spans.
fn have_spans(tokens: &[Token], spans: &[(u32, u32)]) -> bool {
    for (token, span) in tokens.iter().zip(spans) {
        if token.from != span.0 || token.to != span.1 {
            return false;
        }
    }
    tokens.len() == spans.len()
}

/// Whether the tokens of a text have these spans.
fn has_spans(alloc: Global, text: &str, spans: &[(u32, u32)]) -> bool {
    if RULES_LIMIT < text.len() {
        return false;
    }
    match tokens(alloc, text) {
        Ok(found) => have_spans(&found, spans),
        Err(_) => false,
    }
}

#[test]
fn tokens_stand_at_their_places(rt: HostRuntime) {
    for (text, spans) in SPANS {
        assert!(rt; has_spans(rt.alloc(), *text, *spans), "{text}");
    }
}
