//! Laws on tables of what runs came to. These functions do nothing.

ghost use Rattle.std.specs.Prelude.{◌≡◌, ℕ, List, Option, length};
ghost use Rattle.elf_image.specs.Image.{ImageContent};
ghost use Rattle.run_records.specs.declared.fingerprint.Fingerprint.{Fingerprint};
ghost use Rattle.run_records.specs.declared.record.Closing.{Closing};
ghost use Rattle.record_commands.specs.Exploring.{AllCame, AllRowsCame};
ghost use Rattle.record_commands.specs.Rows.{Tallies, times_of};
ghost use Rattle.record_commands.specs.declared.row.Row.{Row};

/// Rows count as many runs as there were.
#[tactic(auto, using(crate::proofs::RowLaws::all_times))]
pub fn counts_add_up()
    ensures { (until : Option ℕ) (seed : ℕ) (closings : List Closing) (rows : List Row) →
        Tallies until seed closings rows → times_of rows ≡ length closings }
{}

/// Each row is like some run, whose record replays.
#[tactic(auto, using(crate::proofs::RowLaws::all_rows))]
pub fn rows_come_from_runs()
    ensures { (image : ImageContent) (input : List ℕ) (file : Fingerprint) (limit : ℕ) (until : Option ℕ)
        (seed : ℕ) (closings : List Closing) (rows : List Row) → AllCame image input file limit closings →
        Tallies until seed closings rows → AllRowsCame image input file limit rows }
{}
