//! The makers of patterns and the book of a rule file: each answer, the counts of calls and faults, and each refusal.
use crate::worlds::file_of;
use rule_names::RuleFile;
use std::alloc::Global;
use value_compare::{
    BookRefusal, PatternFault, PatternMaker, RegexMaker, ScriptMaker, pattern_book,
};

/// A letter for what a maker makes of a text: it is `m`ade, no pattern by its `s`yntax, too `l`arge, or there is no memory
/// (`n`).
fn letter<M: PatternMaker>(alloc: Global, maker: &mut M, text: &str) -> u8 {
    match maker.make(alloc, text) {
        Ok(_) => b'm',
        Err(PatternFault::Syntax) => b's',
        Err(PatternFault::TooLarge) => b'l',
        Err(PatternFault::Memory) => b'n',
    }
}

#[test]
fn a_maker_counts_no_text_that_is_no_pattern(rt: HostRuntime) {
    let mut maker = RegexMaker { faults: 0 };
    assert!(rt; letter(rt.alloc(), &mut maker, "(") == b's');
    assert!(rt; letter(rt.alloc(), &mut maker, "^a+$") == b'm');
    assert!(rt; maker.faults == 0);
}

/// Its maker fails at two calls, and the count has room for one fault.
#[test]
fn a_script_fails_at_its_calls(rt: HostRuntime) {
    let mut maker = ScriptMaker {
        failing: vec![in rt.alloc(); 1, 3].expect(&rt, "numbers"),
        calls: 0,
        faults: 18446744073709551614,
    };
    assert!(rt; letter(rt.alloc(), &mut maker, "a") == b'm');
    assert!(rt; letter(rt.alloc(), &mut maker, "a") == b'l');
    assert!(rt; maker.calls == 2 && maker.faults == 18446744073709551615);
    assert!(rt; letter(rt.alloc(), &mut maker, "(") == b's');
    assert!(rt; letter(rt.alloc(), &mut maker, "a") == b'l');
    assert!(rt; letter(rt.alloc(), &mut maker, "a") == b'm');
    assert!(rt; maker.calls == 5 && maker.faults == 18446744073709551615);
}

/// A letter and a place for what comes of the patterns of a file: a book is `m`ade, or one with `o`ther patterns, one is `b`ad,
/// one is `r`efused, or there is no memory (`n`).
fn outcome(alloc: Global, file: &RuleFile, script: &mut ScriptMaker) -> (u8, u32) {
    match pattern_book(alloc, file, script) {
        Ok(book) => {
            let is_whole = book.has("a") && book.has("b") && !book.has("c");
            (if is_whole { b'm' } else { b'o' }, 0)
        }
        Err(BookRefusal::BadPattern(at)) => (b'b', at),
        Err(BookRefusal::PatternRefused(at)) => (b'r', at),
        Err(BookRefusal::NoMemory) => (b'n', 0),
    }
}

/// Rules; the call that fails; and what comes of it: a letter, a place, and how many calls and faults are counted.
const BOOKS: &[(&str, u64, (u8, u32, u64, u64))] = &[
    (
        "rule r { A == /a/ A == /b/ A == /a/ A == 'a' }",
        2,
        (b'm', 0, 2, 0),
    ),
    (
        "rule r { A == /a/ A == /b/ A == /a/ A == 'a' }",
        1,
        (b'r', 23, 2, 1),
    ),
    ("rule r { A == /a/ A == /(/ A == /b/ }", 2, (b'b', 23, 2, 0)),
];

#[test]
fn a_book_has_each_pattern_or_is_refused(rt: HostRuntime) {
    for (text, call, wanted) in BOOKS {
        let file = file_of(rt.alloc(), *text).expect(&rt, *text);
        let mut script = ScriptMaker {
            failing: vec![in rt.alloc(); *call].expect(&rt, "a number"),
            calls: 0,
            faults: 0,
        };
        let (letter, at) = outcome(rt.alloc(), &file, &mut script);
        assert!(rt;
            (letter, at, script.calls, script.faults) == *wanted,
            "{text}"
        );
    }
}
