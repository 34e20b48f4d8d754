//! What a walk over the names of a file finds.
use name_scopes::fault::Wrong;

/// The first name that is given twice, and the first that is used wrongly.
#[derive(Clone, Copy)]
pub struct Found<'f> {
    pub again: Option<Wrong<'f>>,
    pub wrong: Option<Wrong<'f>>,
}
