//! What is so of paths, whatever runs. These functions do nothing.

ghost use Rattle.std.specs.Prelude.{◌≡◌, ◌≤◌, ◌∷◌, [], ℕ, List, Some, length, take};
ghost use Rattle.flat_machine.specs.ByTurns.{by_turns};
ghost use Rattle.flat_machine.specs.Process.{flat_run};
ghost use Rattle.flat_machine.specs.Schedule.{written_out};
ghost use Rattle.flat_machine.specs.declared.schedule.Turn.{Turn};
ghost use Rattle.run_paths.specs.Paths.{along, path_of};
ghost use Rattle.run_paths.specs.declared.path.Whose.TheVariants as whose;
ghost use Rattle.run_paths.specs.declared.running.Place.{Place};

/// The first steps of the path of a record are the flat run of the first steps that its turns write out.
#[tactic(auto, using(crate::proofs::Recorded::run_of_turns))]
pub fn recorded_paths_are_flat_runs()
    ensures { (turns : List Turn) (steps : ℕ) (first at : Place) →
        steps ≤ length (written_out turns) → along (path_of turns) steps first ≡ Some at →
        flat_run (take steps (written_out turns)) first.process ≡ Some at.process }
{}

/// The first steps of a path by turns are that run by turns.
#[tactic(auto, using(crate::proofs::Recorded::run_by_turns))]
pub fn paths_by_turns_are_runs_by_turns()
    ensures { (count steps : ℕ) (first at : Place) → steps ≤ count →
        along (record { whose = whose.ByTurns; count = count } ∷ []) steps first ≡ Some at →
        by_turns steps first.turn first.process ≡ Some (at.turn, at.process) }
{}
