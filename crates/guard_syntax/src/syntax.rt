//! A rule file. Each part has a site: its number in the order in which the parts begin, an outer one before its first
//! inner one.
use crate::name::{Name, Names, Places, Text};
use doc_values::Doc;

/// A rule file: its lets, its rules, the parts outside rules, and the byte offset of each site.
#[derive(Drop)]
pub struct RawFile {
    pub lets: Vec<Let>,
    pub rules: Vec<Rule>,
    pub loose: Vec<Disj>,
    pub places: Places,
}

/// `let name = value`.
#[derive(Drop)]
#[cycle(rules)]
pub struct Let {
    pub site: u32,
    pub name: Name,
    pub value: Expr,
}

/// `rule name when cond body`, or `rule name(params) body`.
#[derive(Drop)]
pub struct Rule {
    pub site: u32,
    pub name: Name,
    pub params: Names,
    pub cond: Option<Conds>,
    pub body: Body,
}

/// `{ .. }`: all its parts have to hold.
#[derive(Drop)]
#[cycle(rules)]
pub struct Body {
    pub site: u32,
    pub lets: Vec<Let>,
    pub parts: Vec<Disj>,
}

/// Conditions: all have to hold.
#[derive(Drop)]
#[cycle(rules)]
pub struct Conds {
    pub site: u32,
    pub parts: Vec<Disj>,
}

/// Parts joined by `or`.
#[derive(Drop)]
#[cycle(rules)]
pub struct Disj {
    pub site: u32,
    pub parts: Vec<Part>,
}

/// A part of a body or of conditions.
#[derive(Drop)]
#[cycle(rules)]
pub enum Part {
    /// `head body`, or `some head body`.
    Block {
        site: u32,
        any: bool,
        head: Query,
        body: Body,
    },
    /// `when cond body`.
    When {
        site: u32,
        cond: Conds,
        body: Body,
    },
    /// `A::B when cond body`.
    Kinds {
        site: u32,
        name: Text,
        cond: Option<Conds>,
        body: Body,
    },
    /// `left op right <<note>>`, or `some left op right <<note>>`.
    Test {
        site: u32,
        any: bool,
        left: Query,
        op: Op,
        not: bool,
        right: Option<Expr>,
        note: Option<Text>,
    },
    /// `name <<note>>`, or `not name <<note>>`: another rule.
    Refer {
        site: u32,
        not: bool,
        name: Text,
        note: Option<Text>,
    },
    /// `name(args) <<note>>`, or `not name(args) <<note>>`: a rule with arguments.
    Call {
        site: u32,
        not: bool,
        name: Text,
        args: Vec<Expr>,
        note: Option<Text>,
    },
}

/// The operator of a test. `!=` is `Eq` negated, `IN` is `Within`.
#[derive(Clone, Copy)]
pub enum Op {
    Exists,
    Empty,
    IsString,
    IsList,
    IsStruct,
    IsBool,
    IsInt,
    IsFloat,
    IsNull,
    Eq,
    Lt,
    Le,
    Gt,
    Ge,
    Within,
}

/// Steps from a start, which is the first of them.
#[derive(Drop)]
#[cycle(rules)]
pub struct Query {
    pub site: u32,
    pub steps: Vec<Step>,
}

/// A step of a query.
#[derive(Drop)]
#[cycle(rules)]
pub struct Step {
    pub site: u32,
    pub form: StepForm,
}

/// What a step does. `This` and `Var` are starts only; a `Key` may be one.
#[derive(Drop)]
#[cycle(rules)]
pub enum StepForm {
    This,
    Var(Text),
    Key(Text),
    Index(u32),
    /// `.*`
    Every,
    /// `[*]`
    Items,
    /// `.%name`; the name stands at its `%`.
    Splice(Name),
    /// `[capture | conditions]`
    Filter(Option<Name>, Conds),
    /// `[capture | keys op right]`
    Keys {
        capture: Option<Name>,
        op: Op,
        not: bool,
        right: Expr,
    },
}

/// What stands at the right of a test, in a let or as an argument.
#[derive(Drop)]
#[cycle(rules)]
pub enum Expr {
    Literal {
        site: u32,
        tree: Doc<'static>,
    },
    Function {
        site: u32,
        name: Text,
        args: Vec<Expr>,
    },
    Query(Query),
    /// `some query`
    Found {
        site: u32,
        query: Query,
    },
}
