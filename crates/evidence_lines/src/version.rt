//! The versions of evidence.
ghost use Rattle.std.specs.Prelude.{◌≡◌};
ghost use Rattle.evidence_lines.specs.Headers.{header};

/// By which rules lines follow: in version 1 a verdict rests on the lines of all its parts, in version 2 lines may stop
/// where it is decided.
#[derive(Clone, Copy, PartialEq)]
pub enum Version {
    One,
    Two,
}

impl Version {
    /// The first line of evidence of the version, with its newline.
    pub fn header(self) -> &'static str
        ensures { result.now ≡ header self }
    {
        match self {
            Version::One => "guard-evidence 1\n",
            Version::Two => "guard-evidence 2\n",
        }
    }
}
