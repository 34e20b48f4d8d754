//! The names of kinds of lines.
ghost use Rattle.std.specs.Prelude.{◌≡◌};
ghost use Rattle.evidence_text.specs.Spelling.{kind_text};
ghost use Rattle.evidence_text.specs.code.Reading.{kind_in};

use evidence_lines::LineKind;

/// Every kind, those of most lines first.
const KINDS: [LineKind; 19] = [
    LineKind::Step,
    LineKind::Test,
    LineKind::Disj,
    LineKind::Conj,
    LineKind::Frame,
    LineKind::Literal,
    LineKind::Rule,
    LineKind::Filter,
    LineKind::Block,
    LineKind::When,
    LineKind::Call,
    LineKind::Fn,
    LineKind::Keys,
    LineKind::Capture,
    LineKind::Types,
    LineKind::Kinds,
    LineKind::Refer,
    LineKind::Found,
    LineKind::File,
];

/// The word that names a kind of line.
pub fn kind_name(kind: LineKind) -> &'static str
    ensures { result.now ≡ kind_text kind }
{
    match kind {
        LineKind::File => "file",
        LineKind::Frame => "frame",
        LineKind::Literal => "literal",
        LineKind::Found => "found",
        LineKind::Fn => "fn",
        LineKind::Step => "step",
        LineKind::Filter => "filter",
        LineKind::Keys => "keys",
        LineKind::Capture => "capture",
        LineKind::Types => "types",
        LineKind::Test => "test",
        LineKind::Refer => "refer",
        LineKind::Call => "call",
        LineKind::Disj => "disj",
        LineKind::Conj => "conj",
        LineKind::When => "when",
        LineKind::Block => "block",
        LineKind::Kinds => "kinds",
        LineKind::Rule => "rule",
    }
}

/// The kind of a name. Those of most lines are asked for first.
pub(crate) fn kind_named(name: &[u8]) -> Option<LineKind>
    ensures { result ≡ kind_in name.now }
{
    match name {
        b"step" => Some(LineKind::Step),
        b"test" => Some(LineKind::Test),
        b"disj" => Some(LineKind::Disj),
        b"conj" => Some(LineKind::Conj),
        b"frame" => Some(LineKind::Frame),
        b"literal" => Some(LineKind::Literal),
        _ => listed(name),
    }
}

/// The same by the list of all kinds.
fn listed(name: &[u8]) -> Option<LineKind>
    ensures { result ≡ kind_in name.now }
{
    KINDS
        .iter()
        .copied()
        .find(|kind| kind_name(*kind).as_bytes() == name)
}
