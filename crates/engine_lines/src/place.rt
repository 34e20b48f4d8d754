//! Where a line stands.
use query_steps::StepPlace;

/// A frame by its number, and a site.
#[derive(Clone, Copy, PartialEq, Eq, Hash)]
pub struct Place {
    pub frame: u64,
    pub site: u32,
}

/// A step in a frame: its site, and where it stands in its query.
#[derive(Clone, Copy)]
pub struct SitedStep<'t> {
    pub frame: u64,
    pub site: u32,
    pub place: StepPlace<'t>,
}
