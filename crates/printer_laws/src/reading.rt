//! What canonical texts are read as.
ghost use Rattle.std.specs.Prelude.{◌≡◌, ℕ, List, None, length, slice_index_or};
ghost use Rattle.guard_lexer.specs.declared.token.Token.{Token};
ghost use Rattle.guard_lexer.specs.Lexes.{IsTokenList};
ghost use Rattle.guard_syntax.specs.Syntax.{File};
ghost use Rattle.literal_parser.specs.Lexemes.{Lexeme, lexemes, ending};
ghost use Rattle.guard_parser.specs.File.{IsSpelled, IsSpelledBy, Rules};
ghost use Rattle.rule_spelling.specs.code.Pieces.{lexemes_from, tokens_from};
ghost use Rattle.rule_printer.specs.RuleText.{rule_text};
ghost use Rattle.rule_printer.specs.code.RulePieces.{rule_pieces};
ghost use Rattle.printer_laws.specs.code.Unplaced.{AreSameButPlaces};
ghost use Rattle.printer_laws.specs.code.Shown.{IsReadBack};

/// Where lexemes, each of which is read back from its spelling, spell a file without a mixed range, a text whose lexemes are
/// those of the file's canonical pieces spells a file that is the same in all but places. The call itself does nothing.
pub fn pieces_are_read()
    ensures { (s : ℕ → Lexeme) (n : ℕ) (f : File) (text : List ℕ) (tokens : List Token) → ((i : ℕ) → IsReadBack (s i).word) → IsSpelledBy s n f None → length (rule_pieces f) ≡ length tokens → ((i : ℕ) → lexemes text tokens i ≡ slice_index_or (lexemes_from 0 (rule_pieces f)) i (ending text)) → (g : File) × AreSameButPlaces g f × IsSpelled text tokens g None }
{}

/// The lexemes of a text are read back from how they are spelled. The call itself does nothing.
pub fn words_are_read()
    ensures { (text : List ℕ) (tokens : List Token) → IsTokenList text tokens → (i : ℕ) → IsReadBack (lexemes text tokens i).word }
{}

/// The tokens of a rule file's canonical text spell a file that is the same in all but places, and that has the same
/// canonical text. The call itself does nothing.
pub fn printed_is_spelled()
    ensures { (text : List ℕ) (tokens : List Token) (f : File) → IsTokenList text tokens → Rules text tokens f → IsTokenList (rule_text f) (tokens_from 0 (rule_pieces f)) × ((g : File) × AreSameButPlaces g f × IsSpelled (rule_text f) (tokens_from 0 (rule_pieces f)) g None × (rule_text g ≡ rule_text f)) }
{}

/// The canonical text of a rule file is one: its tokens have a syntax that is the same in all but places, and the text of
/// that syntax is the same. The call itself does nothing.
pub fn printed_is_read()
    ensures { (text : List ℕ) (tokens : List Token) (f : File) → IsTokenList text tokens → Rules text tokens f → (others : List Token) × (g : File) × IsTokenList (rule_text f) others × Rules (rule_text f) others g × AreSameButPlaces g f × (rule_text g ≡ rule_text f) }
{}

/// Whatever the canonical text of a rule file is read as, it is the same in all but places; and so are two rule files that
/// have one canonical text. The call itself does nothing.
pub fn one_printed()
    ensures read { (text : List ℕ) (tokens : List Token) (f : File) → IsTokenList text tokens → Rules text tokens f → (others : List Token) (g : File) → IsTokenList (rule_text f) others → Rules (rule_text f) others g → AreSameButPlaces g f × (rule_text g ≡ rule_text f) }
    ensures files { (text text_too : List ℕ) (tokens others : List Token) (f g : File) → IsTokenList text tokens → Rules text tokens f → IsTokenList text_too others → Rules text_too others g → rule_text f ≡ rule_text g → AreSameButPlaces f g }
{}
