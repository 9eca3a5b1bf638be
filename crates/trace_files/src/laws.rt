//! Laws on what is written of a string and read again.

ghost use Rattle.std.specs.Prelude.{◌≡◌, ◌<◌, ◌^◌, ℕ, List, Some, map};
ghost use Rattle.std.specs.List.{flat_map};
ghost use Rattle.text_lines.specs.Text.{lines_of};
ghost use Rattle.clock_policy.specs.declared.key.Key.{Key};
ghost use Rattle.guest_strings.specs.declared.reference.Reference.{Reference};
ghost use Rattle.trace_lines.specs.PageIds.{page_of_id};
ghost use Rattle.trace_lines.specs.Columns.{table_named};
ghost use Rattle.trace_lines.specs.Lines.{to_page, with_ids};
ghost use Rattle.trace_lines.specs.Rows.{row_said};
ghost use Rattle.trace_lines.specs.declared.format.IdKind.TheVariants.{Numbers};
ghost use Rattle.trace_files.specs.Written.{csv_row, header, record_bytes, reference_line};
ghost use Rattle.trace_files.specs.Written.{usual_table, written_table};
ghost use Rattle.trace_lines.specs.PageLines.{AreReferences, IsPage, line_reference};
ghost use Rattle.trace_lines.specs.PageLines.{record_page};

/// The lines that are written of references are read as these references.
#[tactic(auto, using(crate::proofs::ReadBackLaws::lines_read))]
pub fn written_lines_are_read()
    ensures { (references : List Reference) → AreReferences references
        → map line_reference (lines_of (flat_map reference_line references))
        ≡ map (λ (reference : Reference). Some reference) references }
{}

/// The line of names of a table names the column of ids, and a row that is written of a page is read as that page, be it the first or a
/// later one.
#[tactic(auto, using(crate::proofs::CsvBackLaws::header_read, crate::proofs::CsvBackLaws::first_row_said, crate::proofs::CsvBackLaws::later_row_said))]
pub fn written_rows_are_read()
    ensures names { table_named usual_table header ≡ Some written_table }
    ensures first { (time : ℕ) (page : Key) → time < 2 ^ 64 → IsPage page
        → row_said written_table (csv_row time page) ≡ Some (to_page page) }
    ensures later { (time : ℕ) (page : Key) → time < 2 ^ 64 → IsPage page
        → row_said (with_ids Numbers written_table) (csv_row time page)
        ≡ Some (to_page page) }
{}

/// A record that is written of a page is read as that page.
#[tactic(auto, using(crate::proofs::ReadBackLaws::record_of_page))]
pub fn written_records_are_read()
    ensures { (time next : ℕ) (page : Key) → IsPage page
        → record_page (record_bytes time page next) ≡ Some page }
{}

/// Each id has a page of its own.
#[tactic(auto, using(crate::proofs::ReadBackLaws::page_of_one_id))]
pub fn ids_have_pages_of_their_own()
    ensures { (a b : ℕ) → page_of_id a ≡ page_of_id b → a ≡ b }
{}
