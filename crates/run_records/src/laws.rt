//! Laws on records that are written and read. These functions do nothing.

ghost use Rattle.std.specs.Prelude.{◌≡◌, ℕ, List, Ok};
ghost use Rattle.flat_machine.specs.Process.{Process};
ghost use Rattle.flat_machine.specs.Schedule.{IsJoined};
ghost use Rattle.run_records.specs.Records.{RecordValue, record_of, record_text};
ghost use Rattle.run_records.specs.Fitting.{IsRecord};
ghost use Rattle.run_records.specs.Replaying.{Replays, StopsReplay};
ghost use Rattle.run_records.specs.declared.replaying.ReplayFault.{ReplayFault};
ghost use Rattle.run_records.specs.declared.replaying.ReplayFault.TheVariants.{NoMemory};

/// What is written of a record is read as this record.
#[tactic(auto, using(crate::proofs::RoundTripLaws::written_read))]
pub fn written_records_are_read()
    ensures { (told : RecordValue) → IsRecord told → record_of (record_text told) ≡ Ok told }
{}

/// What is read as a record is what is written of it: no other text is read as that record.
#[tactic(auto, using(crate::proofs::RoundTripLaws::read_written))]
pub fn read_records_are_written()
    ensures { (text : List ℕ) (told : RecordValue) → record_of text ≡ Ok told → record_text told ≡
        text }
{}

/// A record that replays, whose turns are those of a schedule, is refused only for lack of memory.
#[tactic(auto, using(crate::proofs::Refusing::only_memory))]
pub fn replayed_records_replay()
    ensures { (told : RecordValue) (before flat after : Process) (fault : ReplayFault) →
        IsJoined told.turns → Replays told before flat → StopsReplay fault told before after →
        fault ≡ NoMemory }
{}
