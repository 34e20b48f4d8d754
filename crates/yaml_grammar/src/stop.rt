//! Why reading stops.
ghost use Rattle.std.specs.Prelude.{◌≡◌};
ghost use Rattle.yaml_grammar.specs.code.Refused.{of_scalar, of_stop};

use crate::refusal::YamlRefusal;
use doc_values::BuildRefusal;
use yaml_scalars::ScalarRefusal;

/// Why reading stops: a refusal of the text. Where no sign counts, the place is one at which the text is no document.
#[derive(Clone, Copy)]
pub enum Stop {
    Unread(u32),
    Tab(u32),
    Anchor(u32),
    Tag(u32),
    Directive(u32),
    ManyDocuments(u32),
    DuplicateKey(u32),
    TooDeep(u32),
    NoMemory,
}

impl From<BuildRefusal> for Stop {
    ghost use Rattle.std.specs.Prelude.{◌≡◌};
    ghost use Rattle.yaml_grammar.specs.code.Refused.{of_build};

    ghost from_gives = { λ r e. e ≡ of_build r };

    fn from(refusal: BuildRefusal) -> Stop {
        match refusal {
            BuildRefusal::NoMemory => Stop::NoMemory,
            BuildRefusal::TooDeep(at) => Stop::TooDeep(at),
            BuildRefusal::DuplicateKey(at) => Stop::DuplicateKey(at),
        }
    }
}

/// The same of a scalar; of one that fails, with this place.
pub fn of_scalar(refusal: ScalarRefusal, place: u32) -> Stop
    ensures { result ≡ of_scalar place refusal }
{
    match refusal {
        ScalarRefusal::NoMemory => Stop::NoMemory,
        ScalarRefusal::Syntax(_) => Stop::Unread(place),
        ScalarRefusal::ManyDocuments(at) => Stop::ManyDocuments(at),
    }
}

/// The refusal of the text.
pub fn refusal_of(stop: Stop) -> YamlRefusal
    ensures { result ≡ of_stop stop }
{
    match stop {
        Stop::Unread(at) => YamlRefusal::Syntax(at),
        Stop::Tab(at) => YamlRefusal::Tab(at),
        Stop::Anchor(at) => YamlRefusal::Anchor(at),
        Stop::Tag(at) => YamlRefusal::Tag(at),
        Stop::Directive(at) => YamlRefusal::Directive(at),
        Stop::ManyDocuments(at) => YamlRefusal::ManyDocuments(at),
        Stop::DuplicateKey(at) => YamlRefusal::DuplicateKey(at),
        Stop::TooDeep(at) => YamlRefusal::TooDeep(at),
        Stop::NoMemory => YamlRefusal::NoMemory,
    }
}
