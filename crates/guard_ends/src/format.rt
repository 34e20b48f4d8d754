//! The format of a template, of parameters and of tests.
ghost use Rattle.std.specs.Prelude.{◌≡◌};
ghost use Rattle.guard_ends.specs.Inputs.{format_of};

/// How the text of a template, of parameters or of tests is written.
#[derive(Clone, Copy)]
pub enum Format {
    Json,
    Yaml,
}

/// The format of one of these files, which its name says: JSON where it ends in `.json`, YAML where it ends otherwise.
pub fn format_of(name: &str) -> Format
    ensures { result ≡ format_of name.now }
{
    if name.as_bytes().ends_with(b".json") {
        Format::Json
    } else {
        Format::Yaml
    }
}
