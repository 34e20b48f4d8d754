//! The lines of refusals, and of evidence that is rejected. They stand on the stack, so that none wants memory, but for those
//! that end with a name, which may be as long as its file.
ghost use Rattle.std.specs.Prelude.{◌≡◌, ◌+◌, ◌≤◌, ◌++◌, Some, codes, length, decimal, string_bytes, IfOk};
ghost use Rattle.doc_values.specs.Limits.{template_limit};
ghost use Rattle.arrayvec.specs.ArrayString.{array_string_len};
ghost use Rattle.doc_values.specs.Position.{line_at, column_at};
ghost use Rattle.guard_ends.specs.Check.{rejected_text};
ghost use Rattle.guard_ends.specs.Lines.{evidence_line, file_word, kind_word, name_part, whole_line, placed_line};

use arrayvec::ArrayString;
use doc_values::place_of;
use guard_ends::{RefusalKind, Which};
use guard_syntax::Name;
use itoa::Buffer;
use std::alloc::{AllocError, Global};

/// A line without a name. None has more than 55 bytes with its newline: the longest word for a file has 6, the longest name of
/// a kind 17.
type Short = ArrayString<64>;

/// The line of a file that is refused as a whole.
pub(crate) fn whole_line(which: Which, name: &str) -> Short
    requires { length name.now ≤ 12 }
    ensures { result.bytes ≡ whole_line which name.now }
{
    let mut line = ArrayString::new();
    line.push_str("guard: ");
    line.push_str(file_word(which));
    line.push_str(": ");
    line.push_str(name);
    line.push_str("\n");
    line
}

/// The line of a refusal at a byte offset of a file. An offset past its bytes stands for their end.
pub(crate) fn placed_line(which: Which, kind: RefusalKind, at: u32, bytes: &[u8]) -> Short
    requires { length bytes.now ≤ template_limit }
    ensures { result.bytes ≡ placed_line which bytes.now at (kind_word kind) }
{
    let mut line = line_start(which, kind, at, bytes);
    line.push_str("\n");
    line
}

/// The line up to the refusal's kind, and the kind.
fn line_start(which: Which, kind: RefusalKind, at: u32, bytes: &[u8]) -> Short
    requires { length bytes.now ≤ template_limit }
    ensures start { result.bytes ≡ codes "guard: " ++ file_word which ++ codes " " ++ decimal (line_at bytes.now at) ++ codes ":"
        ++ decimal (column_at bytes.now at) ++ codes ": " ++ kind_word kind }
    ensures short { array_string_len result ≤ 54 }
{
    let (row, column) = place_in(bytes, at);
    let mut line = ArrayString::new();
    line.push_str("guard: ");
    line.push_str(file_word(which));
    line.push_str(" ");
    push_number(&mut line, row);
    line.push_str(":");
    push_number(&mut line, column);
    line.push_str(": ");
    line.push_str(kind_word(kind));
    line
}

/// The line of evidence whose line of this number is not in the format.
pub(crate) fn evidence_line(number: u64) -> Short
    ensures { result.bytes ≡ evidence_line number }
{
    let mut line = ArrayString::new();
    line.push_str("guard: proof line ");
    push_line_number(&mut line, number);
    line.push_str(": EvidenceSyntax\n");
    line
}

/// What is written of evidence that is rejected at the line of this number.
pub fn rejected_text(number: u64) -> Short
    ensures { result.bytes ≡ rejected_text number }
{
    let mut line = ArrayString::new();
    line.push_str("rejected ");
    push_line_number(&mut line, number);
    line.push_str("\n");
    line
}

/// The line of a refusal that is about a name, at the byte offset where that stands in a file.
pub(crate) fn named_line(
    alloc: Global,
    which: Which,
    kind: RefusalKind,
    name: &Name,
    bytes: &[u8],
) -> Result<String, AllocError>
    requires { length bytes.now ≤ template_limit }
    ensures { IfOk result (λ line. string_bytes line
        ≡ placed_line which bytes.now name.now.at (kind_word kind ++ name_part (Some name.now.text))) }
{
    let start = line_start(which, kind, name.at(), bytes);
    let mut line = String::from_str(alloc, start.as_str())?;
    line.push_str(" ")?;
    line.push_str(name.as_str())?;
    line.push_str("\n")?;
    Ok(line)
}

/// The line and the column of a byte offset, those of the end where it is past the bytes.
fn place_in(bytes: &[u8], at: u32) -> (u32, u32)
    requires { length bytes.now ≤ template_limit }
    ensures line { result.0 ≡ line_at bytes.now at }
    ensures column { result.1 ≡ column_at bytes.now at }
{
    place_of(bytes, at.min(bytes.len() as u32))
}

/// Appends a number.
fn push_number(line: &mut Short, number: u32)
    requires { array_string_len line.old + 10 ≤ 64 }
    ensures bytes { line.new.bytes ≡ line.old.bytes ++ decimal number }
    ensures short { array_string_len line.new ≤ array_string_len line.old + 10 }
{
    let mut digits = Buffer::new();
    line.push_str(digits.format(number));
}

/// Appends the number of a line of evidence.
fn push_line_number(line: &mut Short, number: u64)
    requires { array_string_len line.old + 20 ≤ 64 }
    ensures bytes { line.new.bytes ≡ line.old.bytes ++ decimal number }
    ensures short { array_string_len line.new ≤ array_string_len line.old + 20 }
{
    let mut digits = Buffer::new();
    line.push_str(digits.format(number));
}

/// The word for a file.
fn file_word(which: Which) -> &'static str
    ensures word { result.now ≡ file_word which }
    ensures short { length result.now ≤ 6 }
{
    match which {
        Which::Rules => "rules",
        Which::Template => "data",
        Which::Params => "params",
        Which::Proof => "proof",
        Which::Tests => "tests",
    }
}

/// The name of a kind.
fn kind_word(kind: RefusalKind) -> &'static str
    ensures word { result.now ≡ kind_word kind }
    ensures short { length result.now ≤ 17 }
{
    match kind {
        RefusalKind::Unclosed => "Unclosed",
        RefusalKind::BadByte => "BadByte",
        RefusalKind::NumberRange => "NumberRange",
        RefusalKind::NestTooDeep => "NestTooDeep",
        RefusalKind::Syntax => "Syntax",
        RefusalKind::BadRange => "BadRange",
        RefusalKind::DuplicateRule => "DuplicateRule",
        RefusalKind::DuplicateName => "DuplicateName",
        RefusalKind::UnknownRule => "UnknownRule",
        RefusalKind::UnknownVariable => "UnknownVariable",
        RefusalKind::UnknownFunction => "UnknownFunction",
        RefusalKind::NeedsArguments => "NeedsArguments",
        RefusalKind::TakesNone => "TakesNone",
        RefusalKind::ArgCount => "ArgCount",
        RefusalKind::LiteralWanted => "LiteralWanted",
        RefusalKind::RecursiveRule => "RecursiveRule",
        RefusalKind::RecursiveVariable => "RecursiveVariable",
        RefusalKind::TooDeep => "TooDeep",
        RefusalKind::DuplicateKey => "DuplicateKey",
        RefusalKind::Tab => "Tab",
        RefusalKind::Anchor => "Anchor",
        RefusalKind::Tag => "Tag",
        RefusalKind::Directive => "Directive",
        RefusalKind::ManyDocuments => "ManyDocuments",
        RefusalKind::BadPattern => "BadPattern",
        RefusalKind::NotAMap => "NotAMap",
        RefusalKind::SharedKey => "SharedKey",
        RefusalKind::TestShape => "TestShape",
        RefusalKind::NoSuchRule => "NoSuchRule",
    }
}
