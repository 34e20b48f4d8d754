//! What a place has ahead, in a text and in longer ones.
ghost use Rattle.std.specs.Prelude.{ℕ, List, [], ◌∷◌, ◌++◌, ◌≡◌, ◌≤◌, true, false, suc, length, drop};
ghost use Rattle.yaml_scalars.specs.declared.scalar.Setting.{Setting};
ghost use Rattle.yaml_scalars.specs.Lines.{Fails, ends_with, is_cut_mark};
ghost use Rattle.yaml_scalars.specs.Scalar.{scalar_at};
ghost use Rattle.yaml_scalars.specs.code.Walk.{has_break, line_at};
ghost use Rattle.yaml_grammar.specs.declared.ahead.Token.TheVariants.{End, Stray};
ghost use Rattle.yaml_grammar.specs.Ahead.{ahead};
ghost use Rattle.yaml_grammar.specs.Nodes.{starts_scalar};
ghost use Rattle.yaml_grammar.specs.code.AheadSeen.{ahead_seen};
ghost use Rattle.yaml_grammar.specs.code.Closers.{is_closer, IsFirm};

/// Where a text that ends in a line feed has nothing ahead of a place, a longer one has ahead there what it has ahead at the
/// text's end. A line feed behind a text leaves nothing ahead where nothing was, or a comment or white space that a carriage
/// return at the text's end shows to be none. The call itself does nothing.
pub fn end_ahead(front: &str, flow: bool, at: usize)
    requires { at ≤ length front.now }
    ensures more { (more : List ℕ) → (ahead (front.now ++ (10 ∷ [])) flow at).token ≡ End → ahead (front.now ++ (10 ∷ more)) flow at ≡ ahead (front.now ++ (10 ∷ more)) flow (suc (length front.now)) }
    ensures feed { (ahead front.now flow at).token ≡ End → (ahead (front.now ++ (10 ∷ [])) flow at).token ≡ End }
    ensures stray { (ahead front.now flow at).token ≡ Stray → ahead_seen front.now at ≡ length front.now → (ahead (front.now ++ (10 ∷ [])) flow at).token ≡ End }
{}

/// What a place in flow has ahead, where that is neither the text's end nor a line `---` or `...`, is the same where the text's
/// last line goes on with a closing bracket. The call itself does nothing.
pub fn closed_ahead(text: &str, at: usize)
    requires { at ≤ length text.now }
    ensures { (bracket : ℕ) (more : List ℕ) → is_closer bracket ≡ true → has_break more ≡ false → IsFirm (ahead text.now true at).token → ahead (text.now ++ (bracket ∷ more)) true at ≡ ahead text.now true at }
{}

/// Where a scalar fails at what is ahead, that is shown not behind the place at which it fails, unless the three bytes of a
/// mark stand there before a carriage return. The call itself does nothing.
pub fn failing_ahead(text: &str, flow: bool, at: usize)
    requires { at ≤ length text.now }
    ensures { (setting : Setting) (place : ℕ) → starts_scalar (ahead text.now flow at).token ≡ true → scalar_at setting text.now (ahead text.now flow at).at ≡ Fails place → is_cut_mark (line_at (drop (ahead text.now flow at).at text.now)) ≡ false → ahead_seen text.now at ≤ place }
{}

/// What a place has ahead, where that is not the text's end, it has ahead with a break behind the text. The call itself does
/// nothing.
pub fn fed_ahead(text: &str, flow: bool, at: usize)
    requires { at ≤ length text.now }
    ensures broken { (more : List ℕ) → ((ahead text.now flow at).token ≡ End → ⊥) → ahead (text.now ++ (13 ∷ 10 ∷ more)) flow at ≡ ahead text.now flow at }
    ensures feed { (more : List ℕ) → ends_with 13 text.now ≡ false → ((ahead text.now flow at).token ≡ End → ⊥) → ahead (text.now ++ (10 ∷ more)) flow at ≡ ahead text.now flow at }
    ensures end { (ahead text.now flow at).token ≡ End → (ahead (text.now ++ (13 ∷ 10 ∷ [])) flow at).token ≡ End }
{}
