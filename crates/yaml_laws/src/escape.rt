//! Digits of an escape.
ghost use Rattle.std.specs.Prelude.{ℕ, List, ◌≡◌, ◌<◌, ◌≤◌, Some, true};
ghost use Rattle.yaml_scalars.specs.declared.escape.Wanted.{Wanted};
ghost use Rattle.yaml_scalars.specs.Quoted.{Number, may_go_on, digits};
ghost use Rattle.yaml_laws.specs.code.Digits.{spelled, longest};

/// Digits are read exactly where they spell a number that is wanted: none of them is refused for what the number may still
/// become. The call itself does nothing.
pub fn wanted_digits()
    ensures read { (w : Wanted) (left so_far count number : ℕ) (bytes : List ℕ) → left ≤ longest w → spelled left so_far bytes ≡ Some number → may_go_on w 0 number ≡ true → digits w left so_far count bytes ≡ Number number }
    ensures wanted { (w : Wanted) (left so_far count number : ℕ) (bytes : List ℕ) → 0 < left → digits w left so_far count bytes ≡ Number number → (spelled left so_far bytes ≡ Some number) × (may_go_on w 0 number ≡ true) }
{}
