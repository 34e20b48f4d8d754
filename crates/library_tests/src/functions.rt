//! The call of a function that no rules can make, since pattern and replacement are always texts that are written out; and a
//! name that no rules can spell.
use crate::worlds::{file_of, template_of};
use guard_builtins::{Made, regex_replace};
use guard_syntax::{Function, Origin, Ref, Row};
use rule_names::RuleFile;
use std::alloc::Global;
use value_compare::{PatternBook, RegexMaker, Store, pattern_book};

/// A row at the root of the template.
const ROOT: Row = Row::Found(Ref {
    origin: Origin::Template,
    node: 0,
    key: false,
});

/// Whether a replacement at the site 5 does not apply to a text where nothing stands for the pattern and for what replaces.
fn is_unmade(alloc: Global, store: &Store<'_, '_>, book: &PatternBook) -> bool {
    match regex_replace(alloc, 5, &[ROOT], &[], &[], store, book) {
        Ok(made) => matches!(made.as_slice(), [Made::Kept(Row::Unmade { call: 5 })]),
        Err(_) => false,
    }
}

/// The patterns of a file.
fn book_of(alloc: Global, file: &RuleFile) -> Option<PatternBook> {
    pattern_book(alloc, file, &mut RegexMaker { faults: 0 }).ok()
}

#[test]
fn nothing_is_replaced_without_a_pattern(rt: HostRuntime) {
    let file = file_of(rt.alloc(), "").expect(&rt, "a file");
    let Some(template) = template_of(rt.alloc(), "12") else {
        panic!(rt; "no template")
    };
    let store = Store::new(rt.alloc(), &template, &file);
    let book = book_of(rt.alloc(), &file).expect(&rt, "a book");
    assert!(rt; is_unmade(rt.alloc(), &store, &book));
}

#[test]
fn functions_have_names(rt: HostRuntime) {
    assert!(rt; Function::named("count") == Some(Function::Count));
    assert!(rt; Function::named("").is_none());
}
