//! Why names are refused.
ghost use Rattle.std.specs.Prelude.{◌≡◌};
ghost use Rattle.name_scopes.specs.code.Seen.{see_wrong};
ghost use Rattle.name_table.specs.code.Refused.{IsRefusalOf};
ghost use Rattle.name_table.specs.declared.refusal.NameRefusal.TheVariants.{NoMemory};

use guard_syntax::Text;
use name_scopes::fault::Wrong;
use rule_names::NameKind;
use std::alloc::{AllocError, Global};

/// Why the names of a rule file are refused: which name it is about, and the byte offset that is answered. That is where
/// the name stands, but for a reference or call of a rule that part's first byte, which may be its `not`, and for
/// `LiteralWanted` the argument's, and for `TooDeep` the item's first byte.
#[derive(Drop)]
pub enum NameRefusal {
    Bad { kind: NameKind, name: Text, at: u32 },
    NoMemory,
}

impl From<AllocError> for NameRefusal {
    ghost from_gives = { λ _ e. e ≡ NoMemory };

    fn from(_error: AllocError) -> NameRefusal {
        NameRefusal::NoMemory
    }
}

/// The refusal of a fault.
pub(crate) fn refuse(alloc: Global, wrong: Wrong) -> NameRefusal
    ensures { IsRefusalOf (see_wrong wrong.entry) result }
{
    match String::from_str(alloc, wrong.name) {
        Ok(text) => NameRefusal::Bad {
            kind: wrong.kind,
            name: Text::new(text),
            at: wrong.at,
        },
        Err(_) => NameRefusal::NoMemory,
    }
}
