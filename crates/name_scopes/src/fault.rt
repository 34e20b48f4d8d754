//! What is the matter with a name, and which of several faults is answered.
ghost use Rattle.std.specs.Prelude.{◌≡◌, ℕ, Bool, Some};
ghost use Rattle.rule_names.specs.Faults.{rank, precedes, earlier};
ghost use Rattle.name_scopes.specs.code.Seen.{see_wrong, see_best};

use rule_names::NameKind;

/// What is the matter with a name of a rule file, and where.
#[derive(Clone, Copy)]
pub struct Wrong<'f> {
    pub kind: NameKind,
    pub name: &'f str,
    pub at: u32,
}

/// Of faults at one place, the one of the lower rank is answered.
fn rank(kind: NameKind) -> u32
    ensures { result ≡ rank kind }
{
    match kind {
        NameKind::DuplicateRule => 0,
        NameKind::DuplicateName => 0,
        NameKind::UnknownRule => 1,
        NameKind::UnknownVariable => 2,
        NameKind::UnknownFunction => 3,
        NameKind::NeedsArguments => 4,
        NameKind::TakesNone => 4,
        NameKind::ArgCount => 5,
        NameKind::LiteralWanted => 6,
        NameKind::RecursiveRule => 7,
        NameKind::RecursiveVariable => 8,
        NameKind::TooDeep => 9,
    }
}

/// Whether a fault comes before another.
fn precedes(a: &Wrong, b: &Wrong) -> bool
    ensures { result ≡ precedes (see_wrong a.now) (see_wrong b.now) }
{
    a.at < b.at || (a.at == b.at && rank(a.kind) < rank(b.kind))
}

/// The one of two faults that comes first.
pub fn earlier<'f>(best: Option<Wrong<'f>>, other: Wrong<'f>) -> Wrong<'f>
    ensures { see_wrong result ≡ earlier (see_best best.entry) (see_wrong other.entry) }
{
    match best {
        Some(best) => { if precedes(&other, &best) { other } else { best } }
        None => other,
    }
}
