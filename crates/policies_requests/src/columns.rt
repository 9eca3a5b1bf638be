//! Columns of a table, by a list of them.

use text_lines::numeral;
use trace_files::Column;

/// Which columns of a table are read.
#[derive(Clone, Copy, Debug)]
pub(crate) struct TableColumns<'a> {
    pub(crate) id: Column<'a>,
    /// Whether the ids are offsets.
    pub(crate) is_offset: bool,
    pub(crate) volume: Option<Column<'a>>,
    pub(crate) size: Option<Column<'a>>,
    pub(crate) op: Option<Column<'a>>,
}

/// The columns of a table where none is named.
pub(crate) fn usual_columns<'a>() -> TableColumns<'a> {
    TableColumns {
        id: Column::Usual,
        is_offset: false,
        volume: None,
        size: None,
        op: None,
    }
}

/// The columns of a list, `ROLE=COLUMN,..`: that of the ids, or of offsets, has to be there. Only offsets have sizes.
pub(crate) fn columns_in(list: &str) -> Option<TableColumns<'_>> {
    let listed = listed_columns(list)?;
    let (id, is_offset) = match (listed.id, listed.offset) {
        (Some(id), None) => (id, false),
        (None, Some(offset)) => (offset, true),
        _ => return None,
    };
    Some(TableColumns {
        id,
        is_offset,
        volume: listed.volume,
        size: if is_offset { listed.size } else { None },
        op: listed.op,
    })
}

/// Whether all columns are known by their places, so that no line has to name them.
pub(crate) fn are_placed(columns: TableColumns<'_>) -> bool {
    for column in [Some(columns.id), columns.volume, columns.size, columns.op] {
        if matches!(column, Some(Column::Named(_) | Column::Usual)) {
            return false;
        }
    }
    true
}

/// The columns that a list has, each once at most.
#[derive(Clone, Copy, Debug)]
struct ListedColumns<'a> {
    id: Option<Column<'a>>,
    offset: Option<Column<'a>>,
    volume: Option<Column<'a>>,
    size: Option<Column<'a>>,
    op: Option<Column<'a>>,
    time: Option<Column<'a>>,
}

fn listed_columns(list: &str) -> Option<ListedColumns<'_>> {
    let mut listed = ListedColumns {
        id: None,
        offset: None,
        volume: None,
        size: None,
        op: None,
        time: None,
    };
    for word in list.split(',') {
        let (role, text) = word.split_once('=')?;
        listed = with_column(listed, role, column(text)?)?;
    }
    Some(listed)
}

/// A number from 1 on, or a name.
fn column(text: &str) -> Option<Column<'_>> {
    if text.is_empty() {
        return None;
    }
    match numeral(text.as_bytes(), 10, u32::MAX) {
        Some(0) => None,
        Some(number) => Some(Column::At(number as usize - 1)),
        None => Some(Column::Named(text)),
    }
}

/// The list with a column in a role that no other has.
fn with_column<'a>(
    listed: ListedColumns<'a>,
    role: &str,
    column: Column<'a>,
) -> Option<ListedColumns<'a>> {
    let ListedColumns {
        mut id,
        mut offset,
        mut volume,
        mut size,
        mut op,
        mut time,
    } = listed;
    match role {
        "id" => id = once(id, column)?,
        "offset" => offset = once(offset, column)?,
        "volume" => volume = once(volume, column)?,
        "size" => size = once(size, column)?,
        "op" => op = once(op, column)?,
        "time" => time = once(time, column)?,
        _ => return None,
    }
    Some(ListedColumns {
        id,
        offset,
        volume,
        size,
        op,
        time,
    })
}

/// A column where there was none.
fn once<'a>(old: Option<Column<'a>>, new: Column<'a>) -> Option<Option<Column<'a>>> {
    match old {
        None => Some(Some(new)),
        Some(_) => None,
    }
}
