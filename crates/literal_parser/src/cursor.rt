//! The steps that all reading is made of.
ghost use Rattle.std.specs.Prelude.{◌≡◌, ℕ, suc, max, IfOk};
ghost use Rattle.guard_syntax.specs.declared.syntax.Op.{Op};
ghost use Rattle.literal_parser.specs.Lexemes.{Lexeme};
ghost use Rattle.literal_parser.specs.Forms.{form, is_end, is_index, is_number, is_square, opens_range, text_of, named_of, index_of, operator_of, sign_of, number_of};
ghost use Rattle.literal_parser.specs.code.TokenClasses.{shape_form, shape_of, wants};
ghost use Rattle.literal_parser.specs.code.Parser as spec;
ghost use Rattle.literal_parser.specs.code.Parser.{Read};
ghost use Rattle.literal_parser.specs.code.Reads.{Reads, itself, site_of, state_of, source};

use crate::lexeme::{index_of, number_of, operator_of, sign_of, text_of};
use crate::token_class::{TokenClass, TokenTest};
use crate::token_cursor::{Cursor, Tokens};
use doc_values::Num;
use guard_syntax::{Name, Op, Text};
use std::alloc::{AllocError, AllocFailed, Global};

/// No text within the limit comes near this number of sites.
const LAST_SITE: usize = u32::MAX as usize;

/// Why reading goes no further.
#[derive(Clone, Copy)]
pub enum Halt {
    /// Nothing goes on with the tokens up to this one, the furthest that was looked at, and with it.
    Dead(usize),
    NoMemory,
}

impl From<AllocError> for Halt {
    ghost use Rattle.literal_parser.specs.declared.cursor.Halt.TheVariants.{NoMemory};
    ghost use Rattle.std.specs.Prelude.{◌≡◌};

    ghost from_gives = { λ _ e. e ≡ NoMemory };

    fn from(_: AllocError) -> Halt {
        Halt::NoMemory
    }
}

impl<T: Drop> From<AllocFailed<T>> for Halt {
    ghost use Rattle.literal_parser.specs.declared.cursor.Halt.TheVariants.{NoMemory};
    ghost use Rattle.std.specs.Prelude.{◌≡◌};

    ghost from_gives = { λ _ e. e ≡ NoMemory };

    fn from(_: AllocFailed<T>) -> Halt {
        Halt::NoMemory
    }
}

impl Tokens<'_> {
    /// The shape of a token, by its number.
    pub(crate) fn shape(self, at: usize) -> TokenClass
        ensures { result ≡ shape_of (source self.entry at) }
    {
        if at < self.shapes.len() {
            self.shapes[at]
        } else {
            TokenClass::End
        }
    }

    /// The byte offset of the first byte of a token.
    pub fn from(self, at: usize) -> u32
        ensures { result ≡ (source self.entry at).from }
    {
        if at < self.items.len() {
            self.items[at].from
        } else {
            self.text.len() as u32
        }
    }

    /// The byte offset behind the last byte of a token.
    pub(crate) fn to(self, at: usize) -> u32
        ensures { result ≡ (source self.entry at).to }
    {
        if at < self.items.len() {
            self.items[at].to
        } else {
            self.text.len() as u32
        }
    }
}

impl Tokens<'_> {
    /// What a token says: a name, a variable without its `%`, a text, a pattern or a note as it is meant; nothing where
    /// it is none of these.
    pub(crate) fn text(self, alloc: Global, at: usize) -> Result<Text, AllocError>
        ensures { IfOk result (λ found. found ≡ text_of (source self.entry at)) }
    {
        if at < self.items.len() {
            text_of(alloc, self.text, self.items[at])
        } else {
            Ok(Text::new(String::new(alloc)))
        }
    }

    /// The number of a token; 0 where it is none.
    pub(crate) fn number(self, at: usize) -> Num
        ensures { result ≡ number_of (source self.entry at) }
    {
        if at < self.items.len() {
            number_of(self.items[at].kind)
        } else {
            Num::Whole(0)
        }
    }
}

fn is_end_of(shape: TokenClass) -> bool
    ensures { result ≡ is_end (shape_form shape) }
{
    matches!(shape, TokenClass::End)
}

impl Cursor {
    /// Whether the next token is what is asked for.
    pub fn sees(&mut self, tokens: Tokens<'_>, want: TokenTest) -> bool
        ensures token { result ≡ wants want (form (source tokens.entry self.old.at)) }
        ensures state { state_of self.new ≡ state_of self.old }
        ensures seen { self.new.seen ≡ max self.old.seen self.old.at }
    {
        self.seen = self.seen.max(self.at);
        want.accepts(tokens.shape(self.at))
    }

    /// Whether no token is left.
    pub fn sees_end(&mut self, tokens: Tokens<'_>) -> bool
        ensures token { result ≡ is_end (form (source tokens.entry self.old.at)) }
        ensures state { state_of self.new ≡ state_of self.old }
        ensures seen { self.new.seen ≡ max self.old.seen self.old.at }
    {
        self.seen = self.seen.max(self.at);
        is_end_of(tokens.shape(self.at))
    }

    /// Whether the token behind the next is.
    pub fn sees_next(&mut self, tokens: Tokens<'_>, want: TokenTest) -> bool
        ensures token { result ≡ wants want (form (source tokens.entry (suc self.old.at))) }
        ensures state { state_of self.new ≡ state_of self.old }
        ensures seen { self.new.seen ≡ max self.old.seen (suc self.old.at) }
    {
        self.seen = self.seen.max(self.at + 1);
        want.accepts(tokens.shape(self.at + 1))
    }

    /// Whether the token behind those two is.
    pub fn sees_third(&mut self, tokens: Tokens<'_>, want: TokenTest) -> bool
        ensures token { result ≡ wants want (form (source tokens.entry (suc (suc self.old.at)))) }
        ensures state { state_of self.new ≡ state_of self.old }
        ensures seen { self.new.seen ≡ max self.old.seen (suc (suc self.old.at)) }
    {
        self.seen = self.seen.max(self.at + 2);
        want.accepts(tokens.shape(self.at + 2))
    }

    /// Whether the next token is an `r` with a bracket directly behind it.
    pub fn sees_range(&mut self, tokens: Tokens<'_>) -> bool
        ensures token { result ≡ opens_range (source tokens.entry self.old.at) (source tokens.entry (suc self.old.at)) }
        ensures state { state_of self.new ≡ state_of self.old }
        ensures seen { self.new.seen ≡ max self.old.seen (suc self.old.at) }
    {
        self.seen = self.seen.max(self.at + 1);
        if !TokenTest::R.accepts(tokens.shape(self.at)) {
            return false;
        }
        if !TokenTest::OpeningEnd.accepts(tokens.shape(self.at + 1)) {
            return false;
        }
        tokens.from(self.at + 1) == tokens.to(self.at)
    }

    /// Begins a part, and answers its site.
    #[tactic(auto, unfolding(crate::specs::code::Parser::opens))]
    pub fn opens(&mut self, tokens: Tokens<'_>) -> Result<u32, Halt>
        ensures { Reads itself (spec.opens (source tokens.entry) site_of (state_of self.old) self.old.seen) result self.new }
    {
        self.seen = self.seen.max(self.at);
        let site = self.places.len().min(LAST_SITE) as u32;
        self.places.push(tokens.from(self.at))?;
        Ok(site)
    }

    /// Takes a token that is what is asked for.
    #[tactic(auto, unfolding(crate::specs::code::Parser::takes))]
    pub fn takes(&mut self, tokens: Tokens<'_>, want: TokenTest) -> Result<(), Halt>
        ensures { Reads (λ _. tt) (spec.takes (source tokens.entry) (wants want) (state_of self.old) self.old.seen) result self.new }
    {
        if !self.sees(tokens, want) {
            return Err(Halt::Dead(self.seen));
        }
        self.at += 1;
        Ok(())
    }

    /// Takes a token, and answers what it says.
    #[tactic(auto, using(crate::proofs::Takes::has_none))]
    pub fn has_text(
        &mut self,
        alloc: Global,
        tokens: Tokens<'_>,
        want: TokenTest,
    ) -> Result<Text, Halt>
        ensures { Reads itself (spec.has (source tokens.entry) (wants want) text_of (state_of self.old) self.old.seen) result self.new }
    {
        let at = self.at;
        self.takes(tokens, want)?;
        Ok(tokens.text(alloc, at)?)
    }

    /// Takes a name, and answers it with its place.
    #[tactic(auto, using(crate::proofs::Takes::has_none))]
    pub fn has_name(
        &mut self,
        alloc: Global,
        tokens: Tokens<'_>,
        want: TokenTest,
    ) -> Result<Name, Halt>
        ensures { Reads itself (spec.has (source tokens.entry) (wants want) named_of (state_of self.old) self.old.seen) result self.new }
    {
        let at = self.at;
        self.takes(tokens, want)?;
        Ok(Name::new(tokens.text(alloc, at)?, tokens.from(at)))
    }

    /// Takes an index, and answers it.
    #[tactic(auto, using(crate::proofs::Takes::has_none))]
    pub fn has_index(&mut self, tokens: Tokens<'_>) -> Result<u32, Halt>
        ensures { Reads itself (spec.has (source tokens.entry) is_index index_of (state_of self.old) self.old.seen) result self.new }
    {
        let shape = tokens.shape(self.at);
        self.takes(tokens, TokenTest::Index)?;
        Ok(index_of(shape))
    }

    /// Takes a number, and answers it.
    #[tactic(auto, using(crate::proofs::Takes::has_none))]
    pub(crate) fn has_number(&mut self, tokens: Tokens<'_>) -> Result<Num, Halt>
        ensures { Reads itself (spec.has (source tokens.entry) is_number number_of (state_of self.old) self.old.seen) result self.new }
    {
        let at = self.at;
        self.takes(tokens, TokenTest::Number)?;
        Ok(tokens.number(at))
    }

    /// Takes the word of an operator, and answers which.
    #[tactic(auto, using(crate::proofs::Takes::has_none))]
    pub fn has_operator(&mut self, tokens: Tokens<'_>, want: TokenTest) -> Result<Op, Halt>
        ensures { Reads itself (spec.has (source tokens.entry) (wants want) operator_of (state_of self.old) self.old.seen) result self.new }
    {
        let shape = tokens.shape(self.at);
        self.takes(tokens, want)?;
        Ok(operator_of(shape))
    }

    /// Takes the mark of an operator, and answers which, and whether it is negated.
    #[tactic(auto, using(crate::proofs::Takes::has_none))]
    pub fn has_sign(&mut self, tokens: Tokens<'_>, want: TokenTest) -> Result<(Op, bool), Halt>
        ensures { Reads itself (spec.has (source tokens.entry) (wants want) sign_of (state_of self.old) self.old.seen) result self.new }
    {
        let shape = tokens.shape(self.at);
        self.takes(tokens, want)?;
        Ok(sign_of(shape))
    }

    /// Takes a bracket, and answers whether it is a square one.
    #[tactic(auto, using(crate::proofs::Takes::has_none))]
    pub(crate) fn has_square(&mut self, tokens: Tokens<'_>, want: TokenTest) -> Result<bool, Halt>
        ensures { Reads itself (spec.has (source tokens.entry) (wants want) (λ (x : Lexeme). is_square (form x)) (state_of self.old) self.old.seen) result self.new }
    {
        let shape = tokens.shape(self.at);
        self.takes(tokens, want)?;
        Ok(TokenTest::Square.accepts(shape))
    }

    /// A range that begins at a place has been read, with bounds of two kinds or of one.
    #[tactic(auto, unfolding(crate::specs::code::Parser::note_range))]
    pub(crate) fn note_range(&mut self, unlike: bool, place: u32)
        ensures { spec.note_range unlike place (state_of self.old) self.old.seen ≡ Read tt (state_of self.new) self.new.seen }
    {
        if unlike && self.mixed.is_none() {
            self.mixed = Some(place);
        }
    }
}
