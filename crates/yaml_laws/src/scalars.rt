//! Scalars: the places of refusals, and texts that begin alike.
ghost use Rattle.std.specs.Prelude.{ℕ, suc, List, [], ◌∷◌, ◌++◌, ◌≡◌, ◌⊎◌, ◌<◌, ◌≤◌, ◌+◌, true, false, length, drop};
ghost use Rattle.yaml_scalars.specs.Lines.{Fails, Stands, begins_with, each, ends_with, is_blank};
ghost use Rattle.yaml_scalars.specs.Plain.{is_flow_mark, is_unsafe};
ghost use Rattle.yaml_scalars.specs.code.Walk.{ends_line, line_at, has_break, behind};
ghost use Rattle.yaml_scalars.specs.Scalar.{begins_block, begins_quoted, scalar_at};
ghost use Rattle.yaml_laws.specs.code.Agreement.{AgreesTo, scalar_shown};
ghost use Rattle.yaml_laws.specs.code.Dots.{is_dotless, undotted};
ghost use Rattle.yaml_laws.specs.code.Endings.{last_mark, further_line, IsKeyEnd};
ghost use Rattle.yaml_laws.specs.code.Refusals.{is_ascii, IsEndedBy, IsLengthened, IsSyntax};

use yaml_scalars::Setting;

/// Where `read_scalar` answers `Syntax`, no text that agrees with this one up to that place and with the byte there has a
/// scalar of the setting there; or the place is the text's length, and a longer text has one. The call itself does nothing.
pub fn syntax_place(text: &str, at: usize, setting: Setting)
    requires { at < length text.now }
    ensures { (place : ℕ) → scalar_at setting text.now at ≡ Fails place → IsSyntax setting text.now at place }
{}

/// Where a scalar stands, another text that agrees with this one through the byte that shows the scalar's end has the same
/// scalar there, where a break begins with that byte in both or in neither: behind a carriage return a line feed may stand
/// or not. The call itself does nothing.
pub fn same_scalar(text: &str, at: usize, setting: Setting)
    ensures { (other scalar : List ℕ) (place end : ℕ) → AgreesTo place text.now other → ends_line (drop place text.now) ≡ ends_line (drop place other) → at ≤ place → scalar_shown setting text.now at end ≤ place → scalar_at setting text.now at ≡ Stands scalar end → scalar_at setting other at ≡ Stands scalar end }
{}

/// A key with nothing but white space between it and the text's end stands, with the same text and end, with a colon behind
/// the text, where what follows the colon may follow one. The call itself does nothing.
pub fn key_followed(text: &str, at: usize, setting: Setting)
    requires { at < length text.now }
    ensures { (more scalar : List ℕ) (end : ℕ) → setting.one_line ≡ true → end ≤ length text.now → is_blank (drop end text.now) ≡ true → is_unsafe setting.flow (line_at more) ≡ true → scalar_at setting text.now at ≡ Stands scalar end → scalar_at setting (text.now ++ (58 ∷ more)) at ≡ Stands scalar end }
{}

/// A scalar in flow stands, with the same text and end, where behind the text stands more of the last line that begins with a
/// bracket or a comma, unless that line ends a document. The call itself does nothing.
pub fn flow_followed(text: &str, at: usize, setting: Setting)
    requires { at < length text.now }
    ensures { (mark : ℕ) (more scalar : List ℕ) (end : ℕ) → setting.flow ≡ true → is_flow_mark mark ≡ true → has_break more ≡ false → end ≤ length text.now → last_mark (behind at (drop at text.now)) ≡ false → scalar_at setting text.now at ≡ Stands scalar end → scalar_at setting (text.now ++ (mark ∷ more)) at ≡ Stands scalar end }
{}

/// A scalar in flow that ends with the text stands where behind the text stands more of the last line that begins with a
/// bracket or a comma. The call itself does nothing.
pub fn flow_closed(text: &str, at: usize, setting: Setting)
    requires { at < length text.now }
    ensures { (mark : ℕ) (more scalar : List ℕ) → setting.flow ≡ true → is_flow_mark mark ≡ true → has_break more ≡ false → scalar_at setting text.now at ≡ Stands scalar (length text.now) → scalar_at setting (text.now ++ (mark ∷ more)) at ≡ Stands scalar (length text.now) }
{}

/// A scalar in flow stands, with the same text and end, where behind the text stands a further line that begins with a bracket
/// or a comma, if no carriage return ends the text. The call itself does nothing.
pub fn flow_fed(text: &str, at: usize, setting: Setting)
    requires { at < length text.now }
    ensures { (mark : ℕ) (more scalar : List ℕ) (end : ℕ) → setting.flow ≡ true → is_flow_mark mark ≡ true → ends_with 13 text.now ≡ false → end ≤ length text.now → scalar_at setting text.now at ≡ Stands scalar end → scalar_at setting (text.now ++ (10 ∷ mark ∷ more)) at ≡ Stands scalar end }
{}

/// Where a quoted scalar, or a plain one whose text does not end in a carriage return, fails at the text's length, some more
/// bytes of ASCII complete it so that it ends with them, and the text of a plain one in a letter. The call itself does nothing.
pub fn scalar_ended(text: &str, at: usize, setting: Setting)
    requires { at < length text.now }
    ensures { begins_block setting (drop at text.now) ≡ false → (begins_quoted (drop at text.now) ≡ true) ⊎ (ends_with 13 text.now ≡ false) → scalar_at setting text.now at ≡ Fails (length text.now) → IsEndedBy setting text.now at }
{}

/// Where a plain scalar that is no key fails behind a carriage return that ends the text, a line feed and a further line
/// complete it so that it ends with the text, in the letter a, unless a colon stands in front of the carriage return or the
/// three bytes of a mark begin its line. The call itself does nothing.
pub fn scalar_fed(front: &str, at: usize, setting: Setting)
    requires { at ≤ length front.now }
    ensures { setting.one_line ≡ false → begins_quoted (drop at (front.now ++ (13 ∷ []))) ≡ false → begins_block setting (drop at (front.now ++ (13 ∷ []))) ≡ false → ends_with 58 front.now ≡ false → last_mark (behind at (drop at front.now)) ≡ false → scalar_at setting (front.now ++ (13 ∷ [])) at ≡ Fails (length (front.now ++ (13 ∷ []))) → (scalar : List ℕ) × (scalar_at setting (front.now ++ (13 ∷ 10 ∷ further_line setting)) at ≡ Stands (scalar ++ (97 ∷ [])) (length (front.now ++ (13 ∷ 10 ∷ further_line setting)))) }
{}

/// Where a plain scalar on one line ends at a colon that ends the text, with nothing but white space between, a letter behind
/// the colon makes the scalar end with the text, in that letter. The call itself does nothing.
pub fn scalar_pointed(front: &str, at: usize, setting: Setting)
    requires { at ≤ length front.now }
    ensures { (scalar : List ℕ) (size : ℕ) → has_break (drop at front.now) ≡ false → begins_quoted (drop at (front.now ++ (58 ∷ []))) ≡ false → begins_block setting (drop at (front.now ++ (58 ∷ []))) ≡ false → at + size ≤ length front.now → is_blank (drop (at + size) front.now) ≡ true → scalar_at setting (front.now ++ (58 ∷ [])) at ≡ Stands scalar (at + size) → (longer : List ℕ) × (scalar_at setting (front.now ++ (58 ∷ 97 ∷ [])) at ≡ Stands (longer ++ (97 ∷ [])) (length (front.now ++ (58 ∷ 97 ∷ [])))) }
{}

/// Where a colon that ends the text shows the end of a plain scalar, which may go over several lines, a letter behind the colon
/// makes the scalar end with the text, in that letter, and adds no dot to it. The call itself does nothing.
pub fn scalar_lettered(text: &str, at: usize, setting: Setting)
    requires { at < length text.now }
    ensures { (scalar : List ℕ) (end : ℕ) → ends_with 58 text.now ≡ true → begins_quoted (drop at text.now) ≡ false → begins_block setting (drop at text.now) ≡ false → scalar_shown setting text.now at end ≡ length text.now → scalar_at setting text.now at ≡ Stands scalar end → (longer : List ℕ) × (scalar_at setting (text.now ++ (97 ∷ [])) at ≡ Stands (longer ++ (97 ∷ [])) (length (text.now ++ (97 ∷ [])))) × (undotted (begins_with 34 (drop at text.now)) false (drop at text.now) ≡ true → each is_dotless (longer ++ (97 ∷ [])) ≡ true) }
{}

/// Where a colon that ends the text shows the end of a plain scalar, the scalar that stands there in a longer text is the same,
/// with what makes the colon an indicator behind it; or its text has the colon, and a dot if one stands so far. The call itself
/// does nothing.
pub fn colon_kept(text: &str, at: usize, setting: Setting)
    requires { at < length text.now }
    ensures { (more scalar longer : List ℕ) (end last : ℕ) → ends_with 58 text.now ≡ true → begins_quoted (drop at text.now) ≡ false → begins_block setting (drop at text.now) ≡ false → scalar_shown setting text.now at end ≡ length text.now → scalar_at setting text.now at ≡ Stands scalar end → scalar_at setting (text.now ++ more) at ≡ Stands longer last → ((is_unsafe setting.flow (line_at more) ≡ true) × (longer ≡ scalar) × (last ≡ end)) ⊎ ((front rest : List ℕ) × (longer ≡ front ++ (58 ∷ rest)) × (undotted (begins_with 34 (drop at text.now)) false (drop at text.now) ≡ false → each is_dotless longer ≡ false)) }
{}

/// Where a block scalar fails behind a carriage return that ends the text, a line feed completes it so that it ends with the
/// text, unless the three bytes of a mark stand before the carriage return. The call itself does nothing.
pub fn block_fed(front: &str, at: usize, setting: Setting)
    requires { at ≤ length front.now }
    ensures { begins_quoted (drop at (front.now ++ (13 ∷ []))) ≡ false → begins_block setting (drop at (front.now ++ (13 ∷ []))) ≡ true → last_mark (behind at (drop at front.now)) ≡ false → scalar_at setting (front.now ++ (13 ∷ [])) at ≡ Fails (length (front.now ++ (13 ∷ []))) → (scalar : List ℕ) × (scalar_at setting (front.now ++ (13 ∷ 10 ∷ [])) at ≡ Stands scalar (length (front.now ++ (13 ∷ 10 ∷ [])))) }
{}

/// Where a block scalar fails at the text's end in its header, and no carriage return ends the text, a break completes it so
/// that it ends with the text, and says nothing. The call itself does nothing.
pub fn header_ended(text: &str, at: usize, setting: Setting)
    requires { at < length text.now }
    ensures { begins_quoted (drop at text.now) ≡ false → begins_block setting (drop at text.now) ≡ true → ends_with 13 (drop at text.now) ≡ false → has_break (drop at text.now) ≡ false → scalar_at setting text.now at ≡ Fails (length text.now) → scalar_at setting (text.now ++ (13 ∷ 10 ∷ [])) at ≡ Stands [] (length (text.now ++ (13 ∷ 10 ∷ []))) }
{}

/// A key is told by its line: a break behind the text changes none, and no key that fails. The call itself does nothing.
pub fn key_fed(text: &str, at: usize, setting: Setting)
    requires { at < length text.now }
    ensures feed { (more : List ℕ) → setting.one_line ≡ true → ends_with 13 text.now ≡ false → scalar_at setting (text.now ++ (10 ∷ more)) at ≡ scalar_at setting text.now at }
    ensures broken { (more : List ℕ) → setting.one_line ≡ true → scalar_at setting (text.now ++ (13 ∷ 10 ∷ more)) at ≡ scalar_at setting text.now at }
{}

/// Where a plain key fails behind a carriage return that ends the text, it stands without the carriage return, with nothing but
/// white space behind it, or with a colon behind that. The call itself does nothing.
pub fn key_returned(front: &str, at: usize, setting: Setting)
    requires { at < length front.now }
    ensures { setting.one_line ≡ true → begins_quoted (drop at (front.now ++ (13 ∷ []))) ≡ false → scalar_at setting (front.now ++ (13 ∷ [])) at ≡ Fails (length (front.now ++ (13 ∷ []))) → (scalar : List ℕ) × (size : ℕ) × (scalar_at setting front.now at ≡ Stands scalar (at + size)) × (at + size ≤ length front.now) × IsKeyEnd (drop (at + size) front.now) }
{}

/// A scalar ends before a carriage return that is in no break, if it begins before it. The call itself does nothing.
pub fn return_free(text: &str, at: usize, setting: Setting)
    ensures { (place : ℕ) (scalar : List ℕ) (end : ℕ) → at ≤ place → begins_with 13 (drop place text.now) ≡ true → begins_with 10 (drop (suc place) text.now) ≡ false → scalar_at setting text.now at ≡ Stands scalar end → end ≤ place }
{}

/// Where a key fails at the end of a text that no carriage return ends, some more bytes of ASCII complete it so that it ends
/// with them, and its text has as many bytes as is wanted, or more: so it can be another than any so far. The call itself does
/// nothing.
pub fn key_lengthened(text: &str, at: usize, setting: Setting)
    requires { at < length text.now }
    ensures { (size : ℕ) → setting.one_line ≡ true → ends_with 13 text.now ≡ false → scalar_at setting text.now at ≡ Fails (length text.now) → IsLengthened setting text.now at size }
{}

/// Where no dot stands among the bytes from a scalar's first one on, as it is or in double quotes as an escape, its text has
/// none. The call itself does nothing.
pub fn scalar_undotted(text: &str, at: usize, setting: Setting)
    ensures { (scalar : List ℕ) (end : ℕ) → begins_block setting (drop at text.now) ≡ false → undotted (begins_with 34 (drop at text.now)) false (drop at text.now) ≡ true → scalar_at setting text.now at ≡ Stands scalar end → each is_dotless scalar ≡ true }
{}

/// Where a plain or quoted scalar without a dot so far fails at the end of a text that no carriage return ends, some more bytes
/// of ASCII complete it so that it ends with them, and its text has no dot. The call itself does nothing.
pub fn undotted_ended(text: &str, at: usize, setting: Setting)
    requires { at < length text.now }
    ensures { begins_block setting (drop at text.now) ≡ false → ends_with 13 text.now ≡ false → undotted (begins_with 34 (drop at text.now)) false (drop at text.now) ≡ true → scalar_at setting text.now at ≡ Fails (length text.now) → (more scalar : List ℕ) × (each is_ascii more ≡ true) × (scalar_at setting (text.now ++ more) at ≡ Stands scalar (length (text.now ++ more))) × (each is_dotless scalar ≡ true) }
{}

/// Where a plain or quoted scalar with a dot so far fails at the end of a text that no carriage return ends, its text has a dot
/// in each longer text in which it stands. The call itself does nothing.
pub fn scalar_dotted(text: &str, at: usize, setting: Setting)
    requires { at < length text.now }
    ensures { (more scalar : List ℕ) (end : ℕ) → setting.one_line ≡ false → begins_block setting (drop at text.now) ≡ false → ends_with 13 text.now ≡ false → undotted (begins_with 34 (drop at text.now)) false (drop at text.now) ≡ false → scalar_at setting text.now at ≡ Fails (length text.now) → scalar_at setting (text.now ++ more) at ≡ Stands scalar end → each is_dotless scalar ≡ false }
{}
