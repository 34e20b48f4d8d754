//! Scans of bytes at each length and border of lanes.
use byte_lanes::{ByteSet, count_byte, first_special, is_ascii, line_starts};
use std::alloc::Global;

/// The greatest length that is tried.
const LONGEST: usize = 130;

/// Bytes `a`, and another in their middle.
fn around(byte: u8) -> [u8; 261] {
    let mut text = [b'a'; 261];
    text[LONGEST] = byte;
    text
}

/// The part of this length that has the middle at this place, or right behind its end.
fn part(text: &[u8; 261], place: usize, length: usize) -> &[u8] {
    if LONGEST < place || LONGEST < length {
        return &[];
    }
    &text[LONGEST - place..LONGEST - place + length]
}

/// Whether the quote at a place is found from each start that is not behind it, and the end from any other.
fn is_found(text: &[u8], place: usize) -> bool {
    if LONGEST < text.len() {
        return false;
    }
    let quotes = ByteSet::of(b"\"\\");
    for from in 0..text.len() + 1 {
        let wanted = if from <= place { place } else { text.len() };
        if first_special(text, from, &quotes) != wanted {
            return false;
        }
    }
    true
}

/// Whether the one byte past ASCII is counted and noticed, if its place is in the text.
fn is_counted(text: &[u8], place: usize) -> bool {
    if place < text.len() {
        count_byte(text, 0xe9) == 1 && !is_ascii(text)
    } else {
        count_byte(text, 0xe9) == 0 && is_ascii(text)
    }
}

/// Whether these are the starts of the lines of a text that is not long.
fn are_starts(alloc: Global, text: &[u8], wanted: &[u32]) -> bool {
    if 1000 < text.len() {
        return false;
    }
    match line_starts(alloc, text) {
        Ok(starts) => starts.as_slice() == wanted,
        Err(_) => false,
    }
}

/// Whether a line begins behind the one newline, if its place is in the text.
fn is_line_begun(alloc: Global, text: &[u8], place: usize) -> bool {
    if LONGEST < text.len() {
        return false;
    }
    if text.len() <= place {
        return are_starts(alloc, text, &[0]);
    }
    are_starts(alloc, text, &[0, place as u32 + 1])
}

/// Each scan of a text of each length that has the byte in question at each place, or none where the place is the length.
#[test]
fn scans_at_each_place_of_each_length(rt: HostRuntime) {
    let quote = around(b'"');
    let letter = around(0xe9);
    let newline = around(b'\n');
    for length in 0..LONGEST + 1 {
        for place in 0..length + 1 {
            let is_found = is_found(part(&quote, place, length), place);
            let is_counted = is_counted(part(&letter, place, length), place);
            let is_begun = is_line_begun(rt.alloc(), part(&newline, place, length), place);
            assert!(rt; is_found && is_counted && is_begun, "{place} of {length}");
        }
    }
}

/// Texts with the starts of their lines.
const LINES: &[(&[u8], &[u32])] = &[
    (b"", &[0]),
    (b"a\nb", &[0, 2]),
    (b"\naa\n\na", &[0, 1, 4, 5]),
    (b"a\r\nb\n\n", &[0, 3, 5, 6]),
];

#[test]
fn many_in_one_text(rt: HostRuntime) {
    for (text, starts) in LINES {
        assert!(rt; are_starts(rt.alloc(), *text, *starts));
    }
    // Each place of a text of newlines begins a line, and so does its end.
    let mut places = [0; 131];
    for place in 0..131 {
        places[place] = place as u32;
    }
    assert!(rt; are_starts(rt.alloc(), &[b'\n'; 130], &places));
    // More than a lane can count.
    assert!(rt; count_byte(&[7; 1000], 7) == 1000);
}

/// The bytes below 20 hex, the quote, the backslash and the last byte.
const SOME: &[u8] =
    b"\x00\x01\x02\x03\x04\x05\x06\x07\x08\x09\x0a\x0b\x0c\x0d\x0e\x0f\x10\x11\x12\x13\x14\x15\x16\x17\x18\x19\x1a\x1b\x1c\x1d\x1e\x1f\"\\\xff";

/// Whether the set of these bytes has them and no other, and finds a byte in a text of it or not.
fn has_its_bytes(members: &[u8]) -> bool {
    let set = ByteSet::of(members);
    for byte in 0..=255 {
        let is_member = members.contains(&byte);
        let first = if is_member { 1 } else { 20 };
        if set.has(byte) != is_member || first_special(&[byte; 20], 1, &set) != first {
            return false;
        }
    }
    true
}

#[test]
fn sets_have_their_bytes(rt: HostRuntime) {
    let mut all = [0; 256];
    for byte in 0..256 {
        all[byte] = byte as u8;
    }
    assert!(rt; has_its_bytes(SOME));
    assert!(rt; has_its_bytes(b""));
    assert!(rt; has_its_bytes(&all));
}
