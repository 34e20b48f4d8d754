//! Answers on pairs of values.
ghost use Rattle.std.specs.Prelude.{◌≡◌};
ghost use Rattle.rule_meaning.specs.Pairs.{told, is_yes};

/// What an operator says of a left and a right value.
#[derive(Clone, Copy, Debug, PartialEq, Eq)]
pub enum PairAnswer {
    Yes,
    No,
    /// The two cannot be compared.
    Apart,
}

impl PairAnswer {
    /// The answer on two values that can be compared.
    pub fn told(holds: bool) -> PairAnswer
        ensures { result ≡ told holds }
    {
        if holds {
            PairAnswer::Yes
        } else {
            PairAnswer::No
        }
    }

    /// Whether it is `Yes`.
    pub fn is_yes(self) -> bool
        ensures { result ≡ is_yes self }
    {
        match self {
            PairAnswer::Yes => true,
            PairAnswer::No | PairAnswer::Apart => false,
        }
    }
}
