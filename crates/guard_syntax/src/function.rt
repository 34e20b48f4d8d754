//! The built-in functions.
ghost use Rattle.std.specs.Prelude.{◌≡◌, find};
ghost use Rattle.std.specs.Str.{bytes_eq};
ghost use Rattle.guard_syntax.specs.Functions.{IsNamed};

/// A built-in function of the rule language.
#[derive(Clone, Copy, PartialEq, Eq)]
pub enum Function {
    Count,
    JsonParse,
    RegexReplace,
    Join,
    ToLower,
    ToUpper,
    Substring,
    UrlDecode,
    ParseInt,
    ParseFloat,
    ParseBoolean,
    ParseString,
}

impl Function {
    /// The function of a name, as it is written in rules, letter case included.
    pub fn named(name: &str) -> Option<Function>
        ensures { IsNamed name.now result }
    {
        match name {
            "count" => Some(Function::Count),
            "json_parse" => Some(Function::JsonParse),
            "regex_replace" => Some(Function::RegexReplace),
            "join" => Some(Function::Join),
            "to_lower" => Some(Function::ToLower),
            "to_upper" => Some(Function::ToUpper),
            "substring" => Some(Function::Substring),
            "url_decode" => Some(Function::UrlDecode),
            "parse_int" => Some(Function::ParseInt),
            "parse_float" => Some(Function::ParseFloat),
            "parse_boolean" => Some(Function::ParseBoolean),
            "parse_string" => Some(Function::ParseString),
            _ => None,
        }
    }
}
