//! What steps do, in numbers.

ghost use Rattle.std.specs.Prelude.{◌≡◌};
ghost use Rattle.guest_profile.specs.Sums.{accesses, both, step_of, sums_of, without};

use rv_isa::Insn;

/// What some steps did: how many they are, how many of them loaded, stored and came to a branch, and how many branches were taken. An
/// atomic operation loads and stores. Each number stays at its type's largest one.
#[derive(Clone, Copy, Debug, PartialEq, Eq, PartialOrd, Ord)]
pub struct Sums {
    pub steps: u64,
    pub loads: u64,
    pub stores: u64,
    pub branches: u64,
    pub taken: u64,
}

/// No steps.
pub const NOTHING: Sums = Sums {
    steps: 0,
    loads: 0,
    stores: 0,
    branches: 0,
    taken: 0,
};

impl Sums {
    /// Of an instruction that ran so often, and so often went on elsewhere than at the instruction after it.
    pub fn of(insn: Insn, steps: u64, taken: u64) -> Self
        ensures { result ≡ sums_of insn steps taken }
    {
        match insn {
            Insn::Load { .. } => accesses(steps, steps, 0),
            Insn::LoadReserved { .. } => accesses(steps, steps, 0),
            Insn::Store { .. } => accesses(steps, 0, steps),
            Insn::StoreConditional { .. } => accesses(steps, 0, steps),
            Insn::Amo { .. } => accesses(steps, steps, steps),
            Insn::Branch { .. } => Sums {
                steps,
                loads: 0,
                stores: 0,
                branches: steps,
                taken,
            },
            _ => accesses(steps, 0, 0),
        }
    }

    /// Of one step of an instruction, where its hart went on elsewhere than at the instruction after it, or not.
    pub(crate) fn of_step(insn: Insn, is_taken: bool) -> Self
        ensures { result ≡ step_of insn is_taken }
    {
        let taken = if is_taken { 1 } else { 0 };
        Sums::of(insn, 1, taken)
    }

    /// These steps and others.
    #[tactic(auto, unfolding(crate::specs::Sums::both))]
    pub fn and(self, other: Sums) -> Self
        ensures { result ≡ both self other }
    {
        Sums {
            steps: self.steps.saturating_add(other.steps),
            loads: self.loads.saturating_add(other.loads),
            stores: self.stores.saturating_add(other.stores),
            branches: self.branches.saturating_add(other.branches),
            taken: self.taken.saturating_add(other.taken),
        }
    }

    /// These steps without others, which are among them.
    #[tactic(auto, unfolding(crate::specs::Sums::without))]
    pub fn without(self, other: Sums) -> Self
        ensures { result ≡ without self other }
    {
        Sums {
            steps: self.steps.saturating_sub(other.steps),
            loads: self.loads.saturating_sub(other.loads),
            stores: self.stores.saturating_sub(other.stores),
            branches: self.branches.saturating_sub(other.branches),
            taken: self.taken.saturating_sub(other.taken),
        }
    }
}

/// Of an instruction that is no branch.
fn accesses(steps: u64, loads: u64, stores: u64) -> Sums
    ensures { result ≡ accesses steps loads stores }
{
    Sums {
        steps,
        loads,
        stores,
        branches: 0,
        taken: 0,
    }
}
