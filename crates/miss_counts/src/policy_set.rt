//! Which policies are counted.

ghost use Rattle.std.specs.Prelude.{◌≡◌, map};
ghost use Rattle.miss_counts.specs.Counted.{is_counted};

use crate::policy_name::{PolicyName, any_served};
use page_policies::Frames;

/// The policies that are counted, each in a column of its own, in this order.
#[derive(Debug, Drop)]
pub struct PolicySet {
    pub policies: Vec<PolicyName>,
    /// Whether the optimum is counted too, where the string is known as a whole.
    pub optimum: bool,
}

impl PolicySet {
    /// Whether anything is counted with one of these numbers of frames: the optimum serves all of them.
    pub fn is_counted(&self, frames: &[Frames]) -> bool
        ensures { result ≡ is_counted self.now (map (λ f. f.number) frames.now) }
    {
        if self.optimum {
            return true;
        }
        any_served(self.policies.as_slice(), frames)
    }
}
