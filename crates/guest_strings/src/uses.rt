//! Pages that are used, one after another.

ghost use Rattle.std.specs.Prelude.{◌≡◌, ◌<◌, ◌++◌, [], None, IfOk, IfSome, OnErr};
ghost use Rattle.guest_strings.specs.ToCome.{all_uses, listed, uses_left, uses_to_come};
ghost use Rattle.guest_strings.specs.Wanting.{RoundWants};

use crate::reference::Reference;
use crate::round::Round;
use std::alloc::AllocError;

/// What the instructions of processes refer to, as they run.
#[derive(Drop)]
pub(crate) struct Uses {
    round: Round,
    /// What the last instruction refers to besides its own page, where that is not yet taken.
    data: Option<Reference>,
}

impl Uses {
    pub(crate) fn new(round: Round) -> Self
        ensures { all_uses result ≡ uses_to_come round }
    {
        Uses { round, data: None }
    }

    /// The next one, or `None` at the end.
    pub(crate) fn next(&mut self) -> Result<Option<Reference>, AllocError>
        ensures next { IfOk result (λ next. all_uses self.old ≡ listed next ++ all_uses self.new) }
        ensures done { IfOk result (λ next. next ≡ None → all_uses self.new ≡ []) }
        ensures fewer { IfOk result (λ next. IfSome next (λ _.
            uses_left self.new < uses_left self.old)) }
        ensures wants { OnErr result (RoundWants self.new.round) }
    {
        if let Some(data) = self.data.take() {
            return Ok(Some(data));
        }
        'steps: while let Some(step) = self.round.step()? {
            if let Some(fetched) = step.fetched {
                self.data = step.data;
                return Ok(Some(fetched));
            }
            if let Some(data) = step.data {
                return Ok(Some(data));
            }
        }
        Ok(None)
    }
}
