//! How long the texts of a call may be, in bytes.

/// The most bytes of a template: 8 MiB.
pub const TEMPLATE_LIMIT: usize = 8_388_608;

/// The most bytes of rules: 1 MiB.
pub const RULES_LIMIT: usize = 1_048_576;

/// The most bytes of evidence: 256 MiB.
pub const EVIDENCE_LIMIT: usize = 268_435_456;
