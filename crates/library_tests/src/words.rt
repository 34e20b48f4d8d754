//! The requests that words make, and words that no table of calls can spell: with a space in them, or very long.
use guard_words::{Request, WordsRefusal, read_words};
use std::alloc::{AllocError, Global};

/// The words between the bars of a line.
fn words_of(alloc: Global, line: &str) -> Result<Vec<String>, AllocError> {
    let mut words = Vec::new(alloc);
    for word in line.split('|') {
        words.push(String::from_str(alloc, word)?)?;
    }
    Ok(words)
}

/// What a request asks for: its command, its count, the names of its files but for the parameters, and the name of these.
type Asked<'a> = (&'a str, u32, [&'a str; 3], Option<&'a str>);

fn asked(request: &Request) -> Asked<'_> {
    match request {
        Request::Validate {
            rules,
            template,
            params,
            evidence,
        } => {
            let command = if *evidence { "evidence" } else { "report" };
            let names = [rules.as_str(), template.as_str(), ""];
            (command, 0, names, params.as_deref())
        }
        Request::Check {
            rules,
            template,
            params,
            proof,
        } => {
            let names = [rules.as_str(), template.as_str(), proof.as_str()];
            ("check", 0, names, params.as_deref())
        }
        Request::Drill { count } => ("drill", *count, [""; 3], None),
        Request::Test { rules, tests } => ("test", 0, [rules.as_str(), tests.as_str(), ""], None),
        Request::Rulegen { template } => ("rulegen", 0, [template.as_str(), "", ""], None),
        Request::Tree { rules } => ("tree", 0, [rules.as_str(), "", ""], None),
    }
}

/// Lines, and what they ask for, if they make a request.
const ANSWERS: &[(&str, Option<Asked<'static>>)] = &[
    (
        "validate|--evidence|--data|b|--rules|a",
        Some(("evidence", 0, ["a", "b", ""], None)),
    ),
    (
        "check|--proof=c|--rules|a|--data=b",
        Some(("check", 0, ["a", "b", "c"], None)),
    ),
    (
        "drill|--count|100000",
        Some(("drill", 100000, ["", "", ""], None)),
    ),
    (
        "test|--tests|b c|--rules= ",
        Some(("test", 0, [" ", "b c", ""], None)),
    ),
    (
        "rulegen|--data|a b",
        Some(("rulegen", 0, ["a b", "", ""], None)),
    ),
    (
        "parse-tree|--rules= ",
        Some(("tree", 0, [" ", "", ""], None)),
    ),
    (
        "validate|--rules|a b|--data| ",
        Some(("report", 0, ["a b", " ", ""], None)),
    ),
    (
        "validate|--rules=a b|--data= ",
        Some(("report", 0, ["a b", " ", ""], None)),
    ),
    (
        "validate|--params|c d|--data|b|--rules|a",
        Some(("report", 0, ["a", "b", ""], Some("c d"))),
    ),
    (
        "check|--proof=c|--rules|a|--data=b|--params= ",
        Some(("check", 0, ["a", "b", "c"], Some(" "))),
    ),
    ("validate|--rules|a|--data|b|--params |c", None),
    ("validate|--rules|a|--data|b|--params|c|--params| ", None),
    ("validate ", None),
    ("validate|--rules |a|--data|b", None),
    ("test|--rules|a|--tests |b", None),
    ("drill|--count| 1", None),
    ("drill|--count|1 ", None),
    ("rulegen|--rules|a", None),
    ("parse-tree|--rules|a|--data|b", None),
];

/// Whether words ask for this, or make no request.
fn ask(alloc: Global, words: &[String], wanted: Option<Asked<'_>>) -> bool {
    match read_words(alloc, words) {
        Ok(request) => wanted == Some(asked(&request)),
        Err(WordsRefusal::Usage) => wanted.is_none(),
        Err(WordsRefusal::NoMemory) => false,
    }
}

#[test]
fn words_make_requests(rt: HostRuntime) {
    for (line, wanted) in ANSWERS {
        let words = words_of(rt.alloc(), *line).expect(&rt, "words");
        assert!(rt; ask(rt.alloc(), &words, *wanted), "{line}");
    }
}

/// A text with another one behind it, many times.
fn long(alloc: Global, front: &str, piece: &str) -> Result<String, AllocError> {
    let mut text = String::from_str(alloc, front)?;
    text.push_str(piece.repeat(alloc, 200_000)?.as_str())?;
    Ok(text)
}

/// A long name, and many words.
#[test]
fn long_words_and_many(rt: HostRuntime) {
    let name = long(rt.alloc(), "", "n").expect(&rt, "a name");
    let line = long(rt.alloc(), "validate|--rules|a|--data=", "n").expect(&rt, "a line");
    let words = words_of(rt.alloc(), line.as_str()).expect(&rt, "words");
    let wanted = ("report", 0, ["a", name.as_str(), ""], None);
    assert!(rt; ask(rt.alloc(), &words, Some(wanted)));
    let line = long(rt.alloc(), "validate|--rules|a|--data=b", "|x").expect(&rt, "a line");
    let words = words_of(rt.alloc(), line.as_str()).expect(&rt, "words");
    assert!(rt; ask(rt.alloc(), &words, None));
}
