//! The laws: calls that do nothing, whose contracts say what is read of texts that are spelled so.
ghost use Rattle.std.specs.Prelude.{◌≡◌, ◌++◌, ◌∷◌, [], ◌<◌, ◌^◌, ℕ, Bool, List, true, false, length, map, slice_index_or, slice_range, decimal};
ghost use Rattle.decimals.specs.declared.decimal.Num.{Num};
ghost use Rattle.decimals.specs.Number.{IsNumber, IsWholePart};
ghost use Rattle.guard_lexer.specs.declared.token.TokenKind.{TokenKind};
ghost use Rattle.guard_lexer.specs.declared.token.TokenKind.TheVariants as k;
ghost use Rattle.guard_lexer.specs.Bytes.{is_white, Each};
ghost use Rattle.guard_lexer.specs.Forms.{HasForm, Name, Str, Pat, Numeral, Note, Var, IsName, form_of};
ghost use Rattle.guard_lexer.specs.Lexes.{IsTokenList};
ghost use Rattle.literal_parser.specs.declared.keyword.Keyword.{Keyword};
ghost use Rattle.literal_parser.specs.Lexemes.{lexeme_of, lexemes, ending, word_of, note_within, text_within};
ghost use Rattle.literal_parser.specs.Lexemes as word;
ghost use Rattle.rule_spelling.specs.Spelling.{ends_in_backslash, number_text, pattern_text, quoted};
ghost use Rattle.rule_spelling.specs.code.Pieces.{AreApart, AreFit, IsInRange, IsNoted, Piece, ends_in_dot, goes_on, is_apart, keeps_apart, keyword_text, lexemes_from, note_spelling, spelled, tokens_from};

/// Pieces that fit, with white space behind them, are the tokens of the text that they spell. The call itself does nothing.
pub fn pieces_are_tokens()
    ensures { (pieces : List Piece) (end : List ℕ) → AreFit false pieces end → Each is_white end → IsTokenList (spelled pieces end) (tokens_from 0 pieces) }
{}

/// The lexemes of these tokens are those that the pieces say. The call itself does nothing.
pub fn pieces_are_lexemes()
    ensures tokens { (pieces : List Piece) (end : List ℕ) → map (lexeme_of (spelled pieces end)) (tokens_from 0 pieces) ≡ lexemes_from 0 pieces }
    ensures lexemes { (pieces : List Piece) (end : List ℕ) (i : ℕ) → lexemes (spelled pieces end) (tokens_from 0 pieces) i ≡ slice_index_or (lexemes_from 0 pieces) i (ending (spelled pieces end)) }
{}

/// Pieces behind others: what they spell, and that they fit where each of both does. The call itself does nothing.
pub fn pieces_joined()
    ensures spelled { (first second : List Piece) (end : List ℕ) → spelled (first ++ second) end ≡ spelled first (spelled second end) }
    ensures fit { (dot : Bool) (first second : List Piece) (end : List ℕ) → AreFit dot first (spelled second end) → AreFit (ends_in_dot dot first) second end → AreFit dot (first ++ second) end }
{}

/// Pieces of which each keeps apart from the one before, by its first byte, fit with white space behind them; a byte that is
/// apart keeps apart from tokens of all kinds. The call itself does nothing.
pub fn apart_pieces_fit()
    ensures fit { (dot : Bool) (pieces : List Piece) (end : List ℕ) → AreApart dot pieces → Each is_white end → AreFit dot pieces end }
    ensures apart { (dot : Bool) (kind : TokenKind) (b : ℕ) → is_apart b ≡ true → keeps_apart dot kind b ≡ true }
{}

/// Nothing goes on with a token at the end of the text, nor a byte that is apart, as white space is, nor a point with one
/// that is no number, or that stands right behind a dot. The call itself does nothing.
pub fn bytes_apart()
    ensures end { (dot : Bool) (kind : TokenKind) → goes_on dot kind [] ≡ false }
    ensures apart { (dot : Bool) (kind : TokenKind) (b : ℕ) (bs : List ℕ) → is_apart b ≡ true → goes_on dot kind (b ∷ bs) ≡ false }
    ensures white { (b : ℕ) → is_white b ≡ true → is_apart b ≡ true }
    ensures point { (dot : Bool) (kind : TokenKind) (bs : List ℕ) → (form_of kind ≡ Numeral → dot ≡ true) → goes_on dot kind (46 ∷ bs) ≡ false }
{}

/// A text or a pattern that does not end in a backslash is read from its spelling, and a keyword and a variable are from
/// theirs. The call itself does nothing.
pub fn spelled_words()
    ensures text { (dot : Bool) (text : List ℕ) → ends_in_backslash text ≡ false → HasForm dot Str (quoted text) × (word_of k.Str (quoted text) ≡ word.Str text) }
    ensures pattern { (dot : Bool) (text : List ℕ) → ends_in_backslash text ≡ false → HasForm dot Pat (pattern_text text) × (word_of k.Pat (pattern_text text) ≡ word.Pat text) }
    ensures keyword { (dot : Bool) (keyword : Keyword) → HasForm dot Name (keyword_text keyword) × (word_of k.Name (keyword_text keyword) ≡ word.Reserved keyword (keyword_text keyword)) }
    ensures variable { (dot : Bool) (name : List ℕ) → IsName name → HasForm dot Var (37 ∷ name) × (word_of k.Var (37 ∷ name) ≡ word.Var name) }
{}

/// A number is read from its spelling, and right behind a dot a whole number without a sign is. The call itself does nothing.
pub fn number_words()
    ensures number { (number : Num) → IsInRange number → IsNumber (number_text number) number }
    ensures numeral { (number : Num) → IsInRange number → HasForm false Numeral (number_text number) }
    ensures index { (n : ℕ) → n < 2 ^ 64 → HasForm true Numeral (decimal n) }
{}

/// A text in which no `>>` stands, without white space at its ends, is read from the note with it. The call itself does
/// nothing.
pub fn note_word()
    ensures { (dot : Bool) (text : List ℕ) → IsNoted text → HasForm dot Note (note_spelling text) × (word_of k.Note (note_spelling text) ≡ word.Note text) }
{}

/// What tokens mean has a spelling: texts and patterns do not end in a backslash, notes are texts of notes, variables have
/// names, numbers are in range. The call itself does nothing.
pub fn meant_words()
    ensures text { (dot : Bool) (bytes : List ℕ) → HasForm dot Str bytes → ends_in_backslash (text_within bytes) ≡ false }
    ensures pattern { (dot : Bool) (bytes : List ℕ) → HasForm dot Pat bytes → ends_in_backslash (text_within bytes) ≡ false }
    ensures note { (dot : Bool) (bytes : List ℕ) → HasForm dot Note bytes → IsNoted (note_within bytes) }
    ensures variable { (dot : Bool) (bytes : List ℕ) → HasForm dot Var bytes → IsName (slice_range bytes 1 (length bytes)) }
    ensures number { (number : Num) (bytes : List ℕ) → IsNumber bytes number → IsInRange number }
{}
