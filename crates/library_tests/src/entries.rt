//! The lines of entries: places at the borders of lines and past a text, those of parameters, and sinks with each room.
ghost use Rattle.std.specs.Prelude.{◌≡◌, true, false};
ghost use Rattle.rule_meaning.specs.StoreModel.{is_known_ref};
ghost use Rattle.value_store.specs.code.Stores.{see_store};
ghost use Rattle.report_text.specs.code.SeenEntries.{is_made};

use crate::worlds::{file_of, json_template_of, template_of};
use doc_values::RULES_LIMIT;
use guard_io::{CleanSink, MemSink};
use guard_syntax::{Origin, Ref};
use report_text::{Entry, Params, ReportFault, Shown, Texts, Word, write_entry};
use std::alloc::Global;
use value_compare::Store;

/// Rules in which the site 2 begins at the byte 6.
const RULES: &str = "let x=1";

/// What shows the call of the site 2.
const CALL: Entry = Entry {
    shown: Shown::Unmade(2),
    word: Word::Missing,
    part: 2,
};

/// Whether a sink of this room takes so much of the line over a text that is handed in for that of the rules. It fails, and
/// counts one fault, exactly where it has not taken the end of the line.
fn is_written(alloc: Global, store: &Store<'_, '_>, text: &str, room: usize, taken: &[u8]) -> bool {
    if RULES_LIMIT < text.len() {
        return false;
    }
    let texts = Texts {
        rules: text,
        template: "",
        params: None,
    };
    let mut sink = MemSink {
        bytes: Vec::new(alloc),
        room: room as u64,
        faults: 0,
    };
    let faults: u64 = match write_entry(alloc, &texts, store, &CALL, &mut sink) {
        Ok(()) => 0,
        Err(ReportFault::Failed) => 1,
        Err(ReportFault::Memory) => return false,
    };
    let wanted = if taken.ends_with(b"\n") { 0 } else { 1 };
    faults == wanted && sink.faults == wanted && sink.bytes.as_slice() == taken
}

/// Whether the same is so over the rules and a template.
fn is_taken(alloc: Global, text: &str, room: usize, taken: &[u8]) -> bool {
    let Some(file) = file_of(alloc, RULES) else {
        return false;
    };
    let Some(template) = template_of(alloc, "a") else {
        return false;
    };
    let store = Store::new(alloc, &template, &file);
    is_written(alloc, &store, text, room, taken)
}

/// Room for each line.
const ROOM: usize = 100;

/// Texts with the line over each: the line and the column of its byte 6, or of its end where that is past it.
const LINES: &[(&str, &[u8])] = &[
    ("", b"  call 1:1 missing by 1:1\n"),
    ("abc", b"  call 1:4 missing by 1:4\n"),
    ("ab\n", b"  call 2:1 missing by 2:1\n"),
    ("abcdef", b"  call 1:7 missing by 1:7\n"),
    ("abcde\n", b"  call 2:1 missing by 2:1\n"),
    ("abcdef\n", b"  call 1:7 missing by 1:7\n"),
    ("abcdefg", b"  call 1:7 missing by 1:7\n"),
    ("abcde\n\n", b"  call 2:1 missing by 2:1\n"),
    ("abcde\ng", b"  call 2:1 missing by 2:1\n"),
    ("ab\n\ncd\n", b"  call 3:3 missing by 3:3\n"),
    ("abc\n\n\nab", b"  call 4:1 missing by 4:1\n"),
    ("\n\n\n\n\n\n\n", b"  call 7:1 missing by 7:1\n"),
    ("éé\nxx", b"  call 2:2 missing by 2:2\n"),
    ("abcd\r\nx", b"  call 2:1 missing by 2:1\n"),
];

#[test]
fn places_are_found_by_lines(rt: HostRuntime) {
    for (text, taken) in LINES {
        assert!(rt; is_taken(rt.alloc(), *text, ROOM, *taken), "{text}");
    }
}

/// The line over the rules.
const LINE: &[u8] = b"  call 1:7 missing by 1:7\n";

#[test]
fn a_sink_takes_what_has_room(rt: HostRuntime) {
    for room in 0..LINE.len() + 1 {
        assert!(rt; is_taken(rt.alloc(), RULES, room, &LINE[..room]), "{room}");
    }
}

/// The map of the template with the entry of the parameters behind its own: its values stand where they do in their own texts.
const DATA: &str = r#"{"A":1,"B":2}"#;

const TEMPLATE: &str = r#"{"A":1}"#;

const PARAMS: &str = "{\n\n    \"B\":2}";

/// The lines of the values of that map, by their numbers.
const VALUES: &[&[u8]] = &[
    b"  . 1:1 value by 1:7\n",
    b"  /A 1:6 value by 1:7\n",
    b"  /B params:3:9 value by 1:7\n",
];

/// Whether this is the line of a value that the store knows.
fn has_line(alloc: Global, store: &Store<'_, '_>, value: Ref, wanted: &[u8]) -> bool
    requires known { is_known_ref (see_store store.now) value ≡ true }
    requires given { is_made value.origin ≡ false }
{
    let texts = Texts {
        rules: RULES,
        template: TEMPLATE,
        params: Some(Params {
            text: PARAMS,
            first: 2,
        }),
    };
    let entry = Entry {
        shown: Shown::Value(value),
        word: Word::Value,
        part: 2,
    };
    let mut sink = CleanSink {
        bytes: Vec::new(alloc),
    };
    match write_entry(alloc, &texts, store, &entry, &mut sink) {
        Ok(()) => sink.bytes.as_slice() == wanted,
        Err(_) => false,
    }
}

/// Whether this is the line of the value of a number.
fn is_line_of(alloc: Global, store: &Store<'_, '_>, node: u32, wanted: &[u8]) -> bool {
    let value = Ref {
        origin: Origin::Template,
        node,
        key: false,
    };
    match store.view(value) {
        Some(_) => has_line(alloc, store, value, wanted),
        None => false,
    }
}

/// The number of the first value that has another line.
fn first_wrong(alloc: Global, store: &Store<'_, '_>) -> Option<usize> {
    for node in 0..VALUES.len() {
        if !is_line_of(alloc, store, node as u32, VALUES[node]) {
            return Some(node);
        }
    }
    None
}

#[test]
fn parameters_have_their_own_places(rt: HostRuntime) {
    let file = file_of(rt.alloc(), RULES).expect(&rt, "a file");
    let Some(data) = json_template_of(rt.alloc(), DATA) else {
        panic!(rt; "no template")
    };
    let store = Store::new(rt.alloc(), &data, &file);
    assert_eq!(rt; first_wrong(rt.alloc(), &store), None);
}
