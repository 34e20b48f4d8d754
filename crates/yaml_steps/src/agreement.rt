//! What a place has ahead, in texts that begin alike.
ghost use Rattle.std.specs.Prelude.{ℕ, List, ◌≡◌, ◌≤◌, drop};
ghost use Rattle.yaml_scalars.specs.code.Walk.{ends_line};
ghost use Rattle.yaml_grammar.specs.Ahead.{ahead};
ghost use Rattle.yaml_laws.specs.code.Agreement.{AgreesTo};
ghost use Rattle.yaml_grammar.specs.code.AheadSeen.{ahead_seen};

/// What a place has ahead is the same in another text that agrees with this one through the byte that shows it, where a
/// break begins with that byte in both or in neither: behind a carriage return a line feed may stand or not. The call
/// itself does nothing.
pub fn same_ahead(text: &str, flow: bool, at: usize)
    ensures { (other : List ℕ) (place : ℕ) → AgreesTo place text.now other → ends_line (drop place text.now) ≡ ends_line (drop place other) → at ≤ place → ahead_seen text.now at ≤ place → ahead other flow at ≡ ahead text.now flow at }
{}
