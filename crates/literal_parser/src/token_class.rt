//! What a token is to the grammar, and what the grammar asks of a token.
ghost use Rattle.std.specs.Prelude.{◌≡◌, ◌&&◌, not};
ghost use Rattle.literal_parser.specs.Forms.{mark_form, keyword_form};
ghost use Rattle.literal_parser.specs.code.TokenClasses.{shape_form, wants, is_of_each};

use crate::keyword::Keyword;
use guard_lexer::Mark;

/// What a token is to the grammar, whatever its text.
#[derive(Clone, Copy)]
pub enum TokenClass {
    /// No token: the end of the text.
    End,
    /// A name that is neither a keyword, nor `r`, nor `default`.
    Name,
    TypeName,
    Var,
    Str,
    Pat,
    /// A whole number from 0 to 2^32 - 1.
    Index(u32),
    Fraction,
    Note,
    /// A whole number that is no index.
    Whole,
    /// The name `r`, which may open a range.
    R,
    /// The name `default`, which is no rule's.
    Default,
    Sign(Mark),
    Reserved(Keyword),
}

/// What the grammar asks of a token.
#[derive(Clone, Copy)]
pub enum TokenTest {
    /// A name of a variable, parameter or capture.
    Name,
    RuleName,
    /// A name or a keyword.
    AnyName,
    R,
    TypeName,
    Var,
    Index,
    Number,
    Note,
    LBrace,
    RBrace,
    LParen,
    RParen,
    LBracket,
    RBracket,
    Comma,
    Bar,
    Dot,
    Star,
    Colon,
    /// `=` or `:=`
    Assign,
    /// `==` or `!=`
    Equality,
    /// `==`, `!=`, `<`, `<=`, `>`, `>=`
    Comparison,
    Let,
    Rule,
    When,
    Some,
    Or,
    /// `!` or `not`
    Neg,
    Keys,
    This,
    In,
    /// `in`, `exists`, `empty`, `is_string` and the like.
    Operator,
    /// A key behind a dot or in a map.
    Key,
    /// A key that begins a query.
    FirstKey,
    /// What begins a query and is no name.
    Start,
    /// What begins a step.
    Step,
    /// What begins a condition.
    Cond,
    /// What begins a part of a body.
    Part,
    /// What stands behind a name that begins a query, in conditions.
    CondLead,
    /// The same in a body, where a block may follow.
    PartLead,
    /// `true`, `false`, `null`
    Constant,
    /// A keyword that can only be the name of a function where an expression may stand.
    FunctionWord,
    /// A literal of one token.
    Scalar,
    /// What begins a literal and is no name.
    Plain,
    /// `(` or `[`
    OpeningEnd,
    /// `)` or `]`
    ClosingEnd,
    /// `[` or `]`
    Square,
}

impl TokenTest {
    /// Whether a token of this shape is what is asked for.
    pub(crate) fn accepts(self, shape: TokenClass) -> bool
        ensures { result ≡ wants self (shape_form shape) }
    {
        match shape {
            TokenClass::End => false,
            TokenClass::Name => self.accepts_name(),
            TokenClass::R => self.accepts_r(),
            TokenClass::Default => self.accepts_default(),
            TokenClass::TypeName => matches!(self, TokenTest::TypeName | TokenTest::Part),
            TokenClass::Var => matches!(
                self,
                TokenTest::Var | TokenTest::Start | TokenTest::Cond | TokenTest::Part
            ),
            TokenClass::Str => self.accepts_text(),
            TokenClass::Pat => matches!(self, TokenTest::Scalar | TokenTest::Plain),
            TokenClass::Index(_) => matches!(self, TokenTest::Index) || self.accepts_number(),
            TokenClass::Fraction | TokenClass::Whole => self.accepts_number(),
            TokenClass::Note => matches!(self, TokenTest::Note),
            TokenClass::Sign(mark) => self.accepts_mark(mark),
            TokenClass::Reserved(keyword) => self.accepts_keyword(keyword),
        }
    }

    fn accepts_name(self) -> bool
        ensures { result ≡ wants self 1 }
    {
        matches!(
            self,
            TokenTest::Name
                | TokenTest::RuleName
                | TokenTest::AnyName
                | TokenTest::Key
                | TokenTest::FirstKey
                | TokenTest::Cond
                | TokenTest::Part
        )
    }

    fn accepts_r(self) -> bool
        ensures { result ≡ wants self 60 }
    {
        match self {
            TokenTest::R => true,
            _ => self.accepts_name(),
        }
    }

    fn accepts_default(self) -> bool
        ensures { result ≡ wants self 61 }
    {
        match self {
            TokenTest::RuleName => false,
            _ => self.accepts_name(),
        }
    }

    fn accepts_text(self) -> bool
        ensures { result ≡ wants self 4 }
    {
        matches!(
            self,
            TokenTest::Key
                | TokenTest::FirstKey
                | TokenTest::Start
                | TokenTest::Cond
                | TokenTest::Part
                | TokenTest::Scalar
                | TokenTest::Plain
        )
    }

    fn accepts_number(self) -> bool
        ensures { result ≡ wants self 7 }
    {
        matches!(
            self,
            TokenTest::Number | TokenTest::Scalar | TokenTest::Plain
        )
    }

    fn accepts_mark(self, mark: Mark) -> bool
        ensures { result ≡ wants self (mark_form mark) }
    {
        match mark {
            Mark::LBrace => matches!(
                self,
                TokenTest::LBrace | TokenTest::PartLead | TokenTest::Plain
            ),
            Mark::RBrace => matches!(self, TokenTest::RBrace),
            Mark::LParen => matches!(self, TokenTest::LParen | TokenTest::OpeningEnd),
            Mark::RParen => matches!(self, TokenTest::RParen | TokenTest::ClosingEnd),
            Mark::LBracket => self.accepts_square(),
            Mark::RBracket => matches!(
                self,
                TokenTest::RBracket | TokenTest::ClosingEnd | TokenTest::Square
            ),
            Mark::Comma => matches!(self, TokenTest::Comma),
            Mark::Bar => matches!(self, TokenTest::Bar),
            Mark::Dot => matches!(
                self,
                TokenTest::Dot | TokenTest::Step | TokenTest::CondLead | TokenTest::PartLead
            ),
            Mark::Star => matches!(self, TokenTest::Star),
            Mark::Colon => matches!(self, TokenTest::Colon),
            Mark::Equals | Mark::Define => matches!(self, TokenTest::Assign),
            Mark::Bang => matches!(self, TokenTest::Neg | TokenTest::Cond | TokenTest::Part),
            Mark::Same | Mark::Differs => matches!(self, TokenTest::Equality)
                || self.accepts_order(),
            Mark::Less | Mark::LessEq | Mark::Greater | Mark::GreaterEq => self.accepts_order(),
        }
    }

    fn accepts_square(self) -> bool
        ensures { result ≡ wants self 14 }
    {
        matches!(
            self,
            TokenTest::LBracket
                | TokenTest::Step
                | TokenTest::CondLead
                | TokenTest::PartLead
                | TokenTest::Plain
                | TokenTest::OpeningEnd
                | TokenTest::Square
        )
    }

    fn accepts_order(self) -> bool
        ensures { result ≡ wants self 26 }
    {
        matches!(
            self,
            TokenTest::Comparison | TokenTest::CondLead | TokenTest::PartLead
        )
    }

    fn accepts_keyword(self, keyword: Keyword) -> bool
        ensures { result ≡ wants self (keyword_form keyword) }
    {
        match self {
            TokenTest::AnyName | TokenTest::Key => true,
            _ => self.accepts_use_of(keyword),
        }
    }

    /// The same for what asks for the use of a keyword, and not for any name.
    fn accepts_use_of(self, keyword: Keyword) -> bool
        ensures { result ≡ (wants self (keyword_form keyword) && not (is_of_each self)) }
    {
        match keyword {
            Keyword::Let => matches!(self, TokenTest::Let | TokenTest::FunctionWord),
            Keyword::Rule => matches!(self, TokenTest::Rule | TokenTest::FunctionWord),
            Keyword::True | Keyword::False | Keyword::Null => {
                matches!(self, TokenTest::Constant | TokenTest::Scalar)
            }
            Keyword::When => matches!(
                self,
                TokenTest::When | TokenTest::Part | TokenTest::FunctionWord
            ),
            Keyword::Some => matches!(
                self,
                TokenTest::Some | TokenTest::Cond | TokenTest::Part | TokenTest::FunctionWord
            ),
            Keyword::Or => matches!(self, TokenTest::Or | TokenTest::FunctionWord),
            Keyword::Not => matches!(
                self,
                TokenTest::Neg | TokenTest::Cond | TokenTest::Part | TokenTest::FunctionWord
            ),
            Keyword::Keys => matches!(self, TokenTest::Keys | TokenTest::FunctionWord),
            Keyword::This => matches!(
                self,
                TokenTest::This | TokenTest::Start | TokenTest::Cond | TokenTest::Part
            ),
            Keyword::In => matches!(self, TokenTest::In) || self.accepts_operator(),
            Keyword::Exists
            | Keyword::Empty
            | Keyword::IsString
            | Keyword::IsList
            | Keyword::IsStruct
            | Keyword::IsBool
            | Keyword::IsInt
            | Keyword::IsFloat
            | Keyword::IsNull => self.accepts_operator(),
        }
    }

    /// The same for the word of an operator that has no other use.
    fn accepts_operator(self) -> bool
        ensures { result ≡ (wants self 42 && not (is_of_each self)) }
    {
        matches!(
            self,
            TokenTest::Operator
                | TokenTest::CondLead
                | TokenTest::PartLead
                | TokenTest::FunctionWord
        )
    }
}
