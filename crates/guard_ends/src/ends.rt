//! How a call ends: the ends, the refusals of files, and the exit status.
ghost use Rattle.std.specs.Prelude.{◌≡◌};
ghost use Rattle.guard_ends.specs.End.{status_of};

use guard_syntax::Text;

/// What is the matter at a place of a file.
#[derive(Clone, Copy)]
pub enum RefusalKind {
    /// In rules, a text, pattern or note without its end, at its opening quote, slash or `<<`.
    Unclosed,
    /// In rules, a byte that begins no token, or that stands directly behind a number.
    BadByte,
    /// A number that is out of range, at its first byte.
    NumberRange,
    /// In rules, a bracket that opens while 128 are open.
    NestTooDeep,
    /// No file begins with what stands up to this place and at it; or the file ends too early.
    Syntax,
    /// In rules, a range with a whole and a decimal bound, at its first byte.
    BadRange,
    /// In rules, a rule with the name of an earlier one, at this name.
    DuplicateRule,
    /// In rules, a let, a capture or a parameter with a name that its scope has already, at this name.
    DuplicateName,
    /// In rules, a reference or a call that names no rule, at its first byte.
    UnknownRule,
    /// In rules, a variable that no scope around it has, at its `%`.
    UnknownVariable,
    /// In rules, a function call that names no function, at the name.
    UnknownFunction,
    /// In rules, a reference to a rule with parameters, at its first byte.
    NeedsArguments,
    /// In rules, a call of a rule without parameters, at its first byte.
    TakesNone,
    /// In rules, a call with another number of arguments than its rule or function takes: of a rule at its first byte, of a
    /// function at the name.
    ArgCount,
    /// In rules, a second or third argument of `regex_replace` that is no literal text, at the argument.
    LiteralWanted,
    /// In rules, a rule that reaches itself, at its first reference, call or variable by which it does.
    RecursiveRule,
    /// In rules, a let or a capture that reaches itself, at its first use of a name by which it does.
    RecursiveVariable,
    /// In a template, in parameters or in tests, a collection inside 128 others, at its first byte.
    TooDeep,
    /// In a template, in parameters or in tests, a key that the map has already, at its first byte.
    DuplicateKey,
    /// In YAML of these, a tab in the white space in front of a line's content.
    Tab,
    /// In YAML of these, an anchor or an alias, at its first byte.
    Anchor,
    /// In YAML of these, a tag that is no short one, or a second one, at its first byte.
    Tag,
    /// In YAML of these, a line in front of the document that begins with `%`.
    Directive,
    /// In YAML of these, a mark of a document or content that makes a further one, at its first byte.
    ManyDocuments,
    /// In rules, a pattern whose text is none, or nests deeper than 250 levels, at the slash or quote that opens it.
    BadPattern,
    /// In a template beside which there are parameters, or in these, a root that is no map, at its first byte.
    NotAMap,
    /// In parameters, an entry of the root whose key the root of the template has too, at its value.
    SharedKey,
    /// In tests, the first value that is not as it has to be where it stands, at its first byte.
    TestShape,
    /// In tests, the first verdict that is expected of no rule which is reported, at its first byte.
    NoSuchRule,
}

/// Why a file is refused.
#[derive(Drop)]
pub enum Refusal {
    /// The file has more bytes than it may have: rules 1 MiB, a template, parameters and tests 8 MiB, evidence 256 MiB.
    TooLong(Which),
    /// The file is not UTF-8.
    NotText(Which),
    /// The line of this number is the first of the evidence that is not in the format, where the header is 0.
    EvidenceSyntax(u64),
    /// The rules that are generated of the template have more bytes than rules may have, 1 MiB.
    TextTooLong,
    /// A place of the file.
    At {
        which: Which,
        kind: RefusalKind,
        /// The byte offset, from 0.
        at: u32,
        /// The name that stands there, where the kind is about names; that of `NoSuchRule` is spelled as in a path.
        name: Option<Text>,
    },
}

/// One of the files that are asked for.
#[derive(Clone, Copy)]
pub enum Which {
    Rules,
    Template,
    /// Parameters, which are judged with the template.
    Params,
    /// Evidence that is to be judged.
    Proof,
    /// What is expected of rules.
    Tests,
}

/// One of the sinks.
#[derive(Clone, Copy)]
pub enum Pipe {
    Out,
    Err,
}

/// How a call ended.
#[derive(Drop)]
pub enum End {
    /// No rule is FAIL; each verdict is as the tests expect it; or rules were written, generated or as they are read.
    Passed,
    /// A rule is FAIL; or a verdict is not as the tests expect it.
    Failed,
    /// Evidence is accepted, whatever the verdicts that it says.
    Accepted,
    /// Evidence is rejected at the line of this number; where a verdict is wanting, at the line behind the last.
    Rejected(u64),
    /// The words ask for nothing.
    Usage,
    Refused(Refusal),
    /// A file could not be read.
    ReadFault(Which),
    /// A sink could not be written.
    WriteFault(Pipe),
    /// A pattern of the rules was not made.
    PatternRefused,
    /// Memory was wanting.
    Memory,
}

impl End {
    /// The exit status of the program.
    pub fn status(&self) -> u8
        ensures { result ≡ status_of self.now }
    {
        match self {
            End::Passed | End::Accepted => 0,
            End::Failed | End::Rejected(_) => 19,
            End::Usage => 2,
            End::Refused(_) => 5,
            End::ReadFault(_) | End::WriteFault(_) | End::PatternRefused => 6,
            End::Memory => 7,
        }
    }
}
