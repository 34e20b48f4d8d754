//! Files in memory and files of the system.
use guard_io::{CleanFiles, Files, LoadFault, MemFiles, RealFiles};
use std::alloc::{AllocError, Global};
use std::fs;

/// Loads files by names and lengths, one after another into one text: what each load appends, and how it ends. Whether there
/// was memory for it.
pub(crate) fn loads<F: Files>(files: &mut F, asked: &[(&str, u64)], text: &mut Vec<u8>) -> bool {
    for (name, most) in asked {
        let end = match files.load(name, *most, text) {
            Ok(()) => b" loaded\n".as_slice(),
            Err(LoadFault::Failed) => b" failed\n".as_slice(),
            Err(LoadFault::Memory) => return false,
        };
        if text.extend_from_slice(end).is_err() {
            return false;
        }
    }
    true
}

/// Names and contents. Two pairs have the name `a`, and the first counts.
const PAIRS: &[(&str, &[u8])] = &[
    ("a", b"one"),
    ("b", b"two"),
    ("a", b"three"),
    ("empty", b""),
];

fn pairs(alloc: Global) -> Result<Vec<(String, Vec<u8>)>, AllocError> {
    let mut pairs = Vec::new(alloc);
    for (name, bytes) in PAIRS {
        let name = String::from_str(alloc, name)?;
        let bytes = Vec::from_slice(alloc, bytes)?;
        pairs.push((name, bytes))?;
    }
    Ok(pairs)
}

/// Loads of files in memory, of which those with the numbers 2 and 7 are to fail.
const ASKED: &[(&str, u64)] = &[
    ("a", 10),
    ("b", 2),
    ("a", 10),
    ("c", 10),
    ("a", 3),
    ("b", 0),
    ("empty", 10),
    ("c", 10),
    ("", 10),
];

#[test]
fn files_in_memory_fail_by_name_and_number(rt: HostRuntime) {
    let mut files = MemFiles {
        names: pairs(rt.alloc()).expect(&rt, "pairs"),
        failing: vec![in rt.alloc(); 2, 7].expect(&rt, "numbers"),
        calls: 0,
        faults: 0,
    };
    let mut text = Vec::new(rt.alloc());
    assert!(rt; loads(&mut files, ASKED, &mut text));
    assert!(rt;
        text.as_slice()
            == b"one loaded\ntw loaded\n failed\n failed\none loaded\n loaded\n loaded\n failed\n failed\n".as_slice()
    );
    assert!(rt; files.calls == 9 && files.faults == 4);
}

#[test]
fn clean_files_do_not_fail(rt: HostRuntime) {
    let mut files = CleanFiles {
        names: pairs(rt.alloc()).expect(&rt, "pairs"),
    };
    let asked = &[("a", 10), ("b", 2), ("c", 10), ("empty", 10)];
    let mut text = Vec::new(rt.alloc());
    assert!(rt; loads(&mut files, asked, &mut text));
    assert!(rt; text.as_slice() == b"one loaded\ntw loaded\n loaded\n loaded\n".as_slice());
}

/// A file that takes more than one read.
const LONG: &str = "load_test.bin";

/// Whether a text is a front of this length of what was written, and that it was loaded.
fn is_front(text: &[u8], written: &[u8], length: usize) -> bool {
    if text.len() < length {
        return false;
    }
    let (front, end) = text.split_at(length);
    written.starts_with(front) && end == b" loaded\n".as_slice()
}

/// How many bytes are asked for at most, and how many the long file has for that.
const FRONTS: &[(u64, usize)] = &[(80000, 70001), (70001, 70001), (65537, 65537), (5, 5)];

#[test]
fn loads_a_file_of_the_system(rt: HostRuntime) {
    let mut written = vec![in rt.alloc(); 7u8; 70000].expect(&rt, "bytes");
    written.push(8).expect(&rt, "a byte");
    fs::write(&rt, LONG, written.as_slice()).expect(&rt, "a file");
    let mut files = RealFiles { rt: &rt, faults: 0 };
    for (most, length) in FRONTS {
        let mut text = Vec::new(rt.alloc());
        assert!(rt; loads(&mut files, &[(LONG, *most)], &mut text), "{most}");
        assert!(rt; is_front(&text, &written, *length), "{most}");
    }
    assert!(rt; files.faults == 0);
    // What is not there, and what is no file.
    let mut text = Vec::new(rt.alloc());
    assert!(rt; loads(&mut files, &[("missing_test.bin", 5), (".", 5)], &mut text));
    assert!(rt; text.as_slice() == b" failed\n failed\n".as_slice());
    assert!(rt; files.faults == 2);
    fs::remove_file(&rt, LONG).expect(&rt, "no file");
}
