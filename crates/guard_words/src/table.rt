ghost use Rattle.std.specs.Prelude.{◌≡◌, option_map, find, map};
ghost use Rattle.std.specs.Str.{bytes_eq};
ghost use Rattle.guard_words.specs.Request.{name_of, options_of, kind_in};
ghost use Rattle.guard_words.specs.code.Reading.{command_in, row_text};

/// What the first word asks `guard` to do.
#[derive(Clone, Copy)]
pub(crate) enum Command {
    Validate,
    Check,
    Drill,
    Test,
    Rulegen,
    ParseTree,
}

/// What stands behind an option: the name of a file, a count, or nothing.
#[derive(Clone, Copy, PartialEq, Eq)]
pub(crate) enum Kind {
    File,
    Count,
    Flag,
}

/// An option of a command.
#[derive(Clone, Copy)]
pub(crate) struct OptionRow {
    pub(crate) name: &'static str,
    pub(crate) kind: Kind,
    pub(crate) required: bool,
}

const RULES: OptionRow = OptionRow {
    name: "rules",
    kind: Kind::File,
    required: true,
};

const DATA: OptionRow = OptionRow {
    name: "data",
    kind: Kind::File,
    required: true,
};

const PARAMS: OptionRow = OptionRow {
    name: "params",
    kind: Kind::File,
    required: false,
};

const EVIDENCE: OptionRow = OptionRow {
    name: "evidence",
    kind: Kind::Flag,
    required: false,
};

const PROOF: OptionRow = OptionRow {
    name: "proof",
    kind: Kind::File,
    required: true,
};

const TESTS: OptionRow = OptionRow {
    name: "tests",
    kind: Kind::File,
    required: true,
};

const COUNT: OptionRow = OptionRow {
    name: "count",
    kind: Kind::Count,
    required: true,
};

const VALIDATE: [OptionRow; 4] = [RULES, DATA, PARAMS, EVIDENCE];

const CHECK: [OptionRow; 4] = [RULES, DATA, PARAMS, PROOF];

const DRILL: [OptionRow; 1] = [COUNT];

const TEST: [OptionRow; 2] = [RULES, TESTS];

const RULEGEN: [OptionRow; 1] = [DATA];

const PARSE_TREE: [OptionRow; 1] = [RULES];

impl Command {
    /// The command of this name.
    pub(crate) fn named(name: &str) -> Option<Command>
        ensures { result ≡ command_in name.now }
    {
        match name {
            "validate" => Some(Command::Validate),
            "check" => Some(Command::Check),
            "drill" => Some(Command::Drill),
            "test" => Some(Command::Test),
            "rulegen" => Some(Command::Rulegen),
            "parse-tree" => Some(Command::ParseTree),
            _ => None,
        }
    }

    /// The word that names the command.
    pub(crate) fn name(self) -> &'static str
        ensures { result.now ≡ name_of self }
    {
        match self {
            Command::Validate => "validate",
            Command::Check => "check",
            Command::Drill => "drill",
            Command::Test => "test",
            Command::Rulegen => "rulegen",
            Command::ParseTree => "parse-tree",
        }
    }

    /// The table of the command's options.
    pub(crate) fn options(self) -> &'static [OptionRow]
        ensures { map row_text result.now ≡ options_of self }
    {
        match self {
            Command::Validate => &VALIDATE,
            Command::Check => &CHECK,
            Command::Drill => &DRILL,
            Command::Test => &TEST,
            Command::Rulegen => &RULEGEN,
            Command::ParseTree => &PARSE_TREE,
        }
    }

    /// The kind of the command's option of this name.
    pub(crate) fn kind_of(self, name: &str) -> Option<Kind>
        ensures { result ≡ kind_in (options_of self) name.now }
    {
        kind_among(self.options(), name)
    }
}

fn kind_among(rows: &[OptionRow], name: &str) -> Option<Kind>
    ensures { result ≡ option_map (λ o. o.kind) (find (λ o. bytes_eq o.name.now name.now) rows.now) }
{
    rows.iter().find(|row| row.name == name).map(|row| row.kind)
}
