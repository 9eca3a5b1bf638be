//! Which references are kept.

ghost use Rattle.std.specs.Prelude.{◌≡◌, None, option_map};
ghost use Rattle.guest_strings.specs.References.{kept, of_fetch};
ghost use Rattle.guest_strings.specs.ToCome.{told};

use crate::reference::Reference;
use crate::step_use::StepUse;

/// Which references of an instruction are kept.
#[derive(Clone, Copy, Debug, PartialEq, Eq)]
pub enum AccessKinds {
    /// To its own page, and to that of its data.
    All,
    /// Only to its own page.
    Instructions,
    /// Only to the page of its data, or of the call that it makes.
    Data,
}

impl StepUse {
    /// What is kept of what a step refers to.
    pub(crate) fn kept(self, accesses: AccessKinds) -> StepUse
        requires { self.fetched ≡ None → self.data ≡ None }
        ensures kept { told result ≡ kept accesses (told self) }
        ensures yields { result.yields ≡ self.yields }
    {
        match accesses {
            AccessKinds::All => self,
            AccessKinds::Instructions => StepUse {
                fetched: of_fetch(self.fetched),
                data: None,
                yields: self.yields,
            },
            AccessKinds::Data => StepUse {
                fetched: None,
                data: self.data,
                yields: self.yields,
            },
        }
    }
}

/// A reference as that of a fetch, which writes nothing.
fn of_fetch(fetched: Option<Reference>) -> Option<Reference>
    ensures { result ≡ option_map of_fetch fetched }
{
    match fetched {
        Some(reference) => Some(Reference {
            page: reference.page,
            is_written: false,
        }),
        None => None,
    }
}
