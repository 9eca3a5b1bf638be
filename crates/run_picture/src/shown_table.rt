//! Page tables as a picture shows them.

ghost use Rattle.std.specs.Prelude.{◌≡◌, IfOk, map};
ghost use Rattle.run_picture.specs.Processes.{set_word, set_words, words_in};

use std::alloc::{AllocError, Global};

/// A word of a page table, which is not 0.
#[derive(Clone, Copy, PartialEq, Eq, Debug)]
pub struct TableWord {
    /// Its place in the table.
    pub index: usize,
    pub word: u32,
}

/// A page table by its words that are not 0, in the order of their places.
#[derive(PartialEq, Drop)]
pub struct ShownTable {
    pub words: Vec<TableWord>,
}

/// Tables by their words.
pub(crate) fn shown_tables(
    alloc: Global,
    tables: &[[u32; 1024]],
) -> Result<Vec<ShownTable>, AllocError>
    ensures { IfOk result (λ shown. map words_in shown.items ≡ map set_words tables.now) }
{
    let mut shown = Vec::new(alloc);
    'tables: for table in tables {
        let words = words_of(alloc, table)?;
        shown.push(ShownTable { words })?;
    }
    Ok(shown)
}

fn words_of(alloc: Global, table: &[u32; 1024]) -> Result<Vec<TableWord>, AllocError>
    ensures { IfOk result (λ words. words.items ≡ set_words table.now) }
{
    table
        .iter()
        .enumerate()
        .filter_map(|(index, word)| set_word(index, *word))
        .collect(alloc)
}

fn set_word(index: usize, word: u32) -> Option<TableWord>
    ensures { result ≡ set_word (index, word) }
{
    if word == 0 {
        None
    } else {
        Some(TableWord { index, word })
    }
}
