//! Lines of a text: what the calls on them say of its places.
use yaml_scalars::lines;

const TEXT: &[u8] = b"a \r\n\t\n --- \n...";

/// A place; where its line ends, where the next one begins (0: there is none), and how many spaces and how much white space
/// stands there; and a letter for each that holds: its `l`ine ends there, it is `b`lank from there on, white space or its
/// `e`nd is there, a `m`ark between documents is, and it is the first `c`olumn.
type Place = (usize, [usize; 4], &'static [u8; 5]);

const PLACES: &[Place] = &[
    (0, [2, 4, 0, 0], b"----c"),
    (1, [2, 4, 1, 1], b"-be--"),
    (2, [2, 4, 0, 0], b"lbe--"),
    (3, [3, 4, 0, 0], b"lbe--"),
    (4, [5, 6, 0, 1], b"-be-c"),
    (6, [11, 12, 1, 1], b"--e-c"),
    (7, [11, 12, 0, 0], b"---m-"),
    (12, [15, 0, 0, 0], b"---mc"),
    (15, [15, 0, 0, 0], b"lbe--"),
];

/// The numbers of a place.
fn numbers(text: &[u8], at: usize) -> [usize; 4] {
    if text.len() < at {
        return [0; 4];
    }
    let next = lines::next_line(text, at).unwrap_or(0);
    let spaces = lines::spaces(text, at);
    [
        lines::line_end(text, at),
        next,
        spaces,
        lines::whites(text, at),
    ]
}

fn letter_if(holds: bool, letter: u8) -> u8 {
    if holds { letter } else { b'-' }
}

/// The letters of a place.
fn letters(text: &[u8], at: usize) -> [u8; 5] {
    if text.len() < at {
        return [0; 5];
    }
    let line = letter_if(lines::ends_line(text, at), b'l');
    let blank = letter_if(lines::is_blank(text, at), b'b');
    let end = letter_if(lines::is_end(text, at), b'e');
    let mark = letter_if(lines::is_mark(text, at), b'm');
    let column = letter_if(lines::is_first_column(text, at), b'c');
    [line, blank, end, mark, column]
}

#[test]
fn calls_tell_of_places(rt: HostRuntime) {
    for (at, wanted, signs) in PLACES {
        assert!(rt;
            numbers(TEXT, *at) == *wanted && letters(TEXT, *at) == **signs,
            "{at}"
        );
    }
    assert!(rt; lines::is_white(b'\t') && !lines::is_white(b'\n'));
}
