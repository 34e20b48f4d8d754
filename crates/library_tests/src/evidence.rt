//! Lines of evidence: read, printed and counted.
ghost use Rattle.std.specs.Prelude.{All};
ghost use Rattle.evidence_lines.specs.Shapes.{IsInFormat};

use evidence_lines::{Cites, Evidence, Line, LineKind, Outcome, Version};
use evidence_text::{print_line, read_evidence};
use guard_syntax::Verdict;
use std::alloc::{AllocError, Global};

/// Evidence of one rule with one test, and evidence with each form of a field, with the number of its lines.
const TEXTS: &[(&str, u64)] = &[
    ("guard-evidence 1\n", 0),
    (
        "guard-evidence 1\nfile - - - d0\nframe 1 2 - d0\nstep 2 6 - d1\nstep 2 7 3 d2\nstep 2 8 4 d4\nstep 2 9 5 m9:d4\ntest 2 4 6 F\ndisj 2 3 7 F\nconj 2 2 8 F\nrule 1 1 9 F\n",
        10,
    ),
    (
        "guard-evidence 1\ntest 18446744073709551615 4294967295 0,18446744073709551615 P\nliteral 1 4 - l4.0\nfilter 2 6 - -\n",
        3,
    ),
    (
        "guard-evidence 1\nfn 2 6 1,2 d1,d2k,l3.0k,c4.18446744073709551615.4294967295,c1.0.3k,m9:c1.0.2k,u7\nkinds 1 2 - S\nfile - - - d5\n",
        3,
    ),
    ("guard-evidence 2\nfile - - - d0\ndisj 1 3 2 P\n", 2),
    (
        "guard-evidence 2\nliteral 1 4 - l4.0\nliteral 2 4 - l4.0\nliteral 3 4 - l4.1\nliteral 4 4 - l4.0\nliteral 1 5 - l5.0k\nliteral 2 5 - l5.0\nliteral 1 6 - l65536.0\nliteral 2 6 - l65536.0\nframe 1 9 - l4.0\nframe 1 9 - l4.0k\n",
        10,
    ),
    (
        "guard-evidence 2\nfound 1 8 - -\nstep 1 7 1 d1\nstep 1 7 1,2 d1,d2\nstep 1 7 1,2,3 d1,d2,d3\nconj 1 2 4,3,2,1 S\nstep 1 7 4,5,6 d4,d5,d6,d7\n",
        6,
    ),
    (
        "guard-evidence 2\nstep 1 7 1 d1k\nstep 1 7 1 d1\nstep 1 7 1 d1,d2,d3\nstep 1 8 1 d1,d2,d3\nstep 1 9 1 d1,d2,d4\nstep 1 8 1 d1,d2,d3\nstep 1 7 1 u5,d2,d3\nstep 1 7 1 m9:d4,d2,d3\n",
        8,
    ),
    (
        "guard-evidence 2\nstep 1 7 1 d1,d2,d3\nstep 1 7 1 d1,d2,d3k\nstep 1 7 1 d1,d3,d2\nstep 1 7 1 d1,d2,d3\nstep 1 7 1 d1k,d2k,d3k\nstep 1 7 1 d1k,d2,d3\nstep 1 7 1 d1,d2,l3.0\nstep 1 7 1 l1.0,d2,d3\nstep 1 7 1 d4294967295,d0,d4294967295,d7\n",
        9,
    ),
];

/// The text of evidence that was read.
fn text_of(alloc: Global, evidence: &Evidence) -> Result<Vec<u8>, AllocError>
    requires { All IsInFormat evidence.now.lines }
{
    let mut text = Vec::from_slice(alloc, evidence.version().header().as_bytes())?;
    for before in 0..evidence.len() {
        let Some(line) = evidence.get(before + 1) else {
            // Each of these numbers has its line.
            unreachable!()
        };
        print_line(alloc, &line, &mut text)?;
    }
    Ok(text)
}

/// Whether evidence has lines with the numbers from 1 to this one, and no others.
fn has_lines(evidence: &Evidence, last: u64) -> bool {
    evidence.len() == last
        && evidence.get(0).is_none()
        && evidence.get(last).is_some() == (0 < last)
        && evidence.get(last.saturating_add(1)).is_none()
}

/// Whether a text is read as evidence of so many lines, and printed again as it was.
fn comes_back(alloc: Global, text: &str, last: u64) -> bool {
    match read_evidence(alloc, text.as_bytes()) {
        Ok(evidence) => match text_of(alloc, &evidence) {
            Ok(printed) => printed.as_slice() == text.as_bytes() && has_lines(&evidence, last),
            Err(_) => false,
        },
        Err(_) => false,
    }
}

#[test]
fn evidence_is_read_and_printed_again(rt: HostRuntime) {
    for (text, last) in TEXTS {
        assert!(rt; comes_back(rt.alloc(), *text, *last), "{text}");
    }
}

/// Adds a line without cites, and says what its number is.
fn number_of_line(evidence: &mut Evidence) -> Result<u64, AllocError> {
    evidence.push(Line {
        kind: LineKind::Rule,
        frame: Some(1),
        site: Some(6),
        cites: Cites::new(&[]),
        outcome: Outcome::Verdict(Verdict::Pass),
    })
}

#[test]
fn lines_are_numbered_from_one(rt: HostRuntime) {
    let mut evidence = Evidence::new(rt.alloc(), Version::Two);
    assert!(rt; number_of_line(&mut evidence).expect(&rt, "a line") == 1);
    assert!(rt; number_of_line(&mut evidence).expect(&rt, "a line") == 2);
    assert!(rt; has_lines(&evidence, 2));
    assert!(rt; evidence.version() == Version::Two);
}
