//! What is asked for over files: their names, and what is to be done with what they hold.
ghost use Rattle.std.specs.Prelude.{◌≡◌, option_map, string_bytes, if◌then◌else◌};
ghost use Rattle.guard_inputs.specs.code.Joined.{name_in};

/// What is done with inputs.
#[derive(Clone, Copy)]
pub(crate) enum Task<'w> {
    /// They are judged, and out takes the report.
    Report,
    /// They are judged, out takes the evidence, and err the report.
    Evidence,
    /// The evidence of this name is judged for them.
    Check { proof: &'w str },
}

/// The names of rules, of a template and, if they are given, of parameters, and what is done with them.
#[derive(Clone, Copy)]
pub(crate) struct Job<'w> {
    pub rules: &'w str,
    pub template: &'w str,
    pub params: Option<&'w str>,
    pub task: Task<'w>,
}

/// What `validate` does, with evidence or without.
pub(crate) fn judging<'w>(evidence: bool) -> Task<'w>
    ensures { result ≡ if evidence then Task.Evidence else Task.Report }
{
    if evidence {
        Task::Evidence
    } else {
        Task::Report
    }
}

/// The name of parameters, borrowed, if it is given.
pub(crate) fn name_in(params: &Option<String>) -> Option<&str>
    ensures { name_in result ≡ option_map string_bytes params.entry.now }
{
    match params {
        Some(name) => Some(name.as_str()),
        None => None,
    }
}
