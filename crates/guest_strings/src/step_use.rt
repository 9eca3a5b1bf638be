//! What a step refers to.

use crate::reference::Reference;

/// What a step refers to.
#[derive(Clone, Copy, Debug, PartialEq, Eq)]
pub(crate) struct StepUse {
    pub(crate) fetched: Option<Reference>,
    pub(crate) data: Option<Reference>,
    /// Whether it lets others have their turn.
    pub(crate) yields: bool,
}
