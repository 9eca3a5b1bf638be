//! Makes slots in files `PREFIX.0`, `PREFIX.1` and so on, at most 512 of them.

ghost use Rattle.std.specs.Prelude.{◌≡◌, min, IfOk, IfErr};
ghost use Rattle.file_slots.specs.FileNames.{file_name};
ghost use Rattle.file_slots.specs.Making.{AreMade, IsMade, StopsAt, StopsMaking};

use crate::fault::FilesFault;
use crate::file_maker::FileMaker;
use crate::file_name::FileName;
use crate::file_slot::FileSlot;

/// The most files that slots are made of.
pub const MOST_FILES: u32 = 512;

/// So many slots, but at most [`MOST_FILES`], each in a file of its own: `PREFIX.0`, `PREFIX.1` and so on, made in this order.
///
/// Each file is made anew, empty: what a file of that name held is gone. The first file that can't be made so stops the rest, and
/// those made before it stay.
pub fn make_file_slots<'a, M: FileMaker + AllocGlobal>(
    rt: &M,
    prefix: &'a str,
    count: u32,
) -> Result<Vec<FileSlot<M::File>>, FilesFault<'a>>
    ensures made { IfOk result (λ slots. AreMade M.makes prefix.now (min count MOST_FILES)
        slots.items) }
    ensures refused { IfErr result (StopsMaking M.makes M.refuses prefix.now
        (min count MOST_FILES)) }
{
    let wanted = count.min(MOST_FILES);
    let mut slots = Vec::with_capacity(rt.alloc(), wanted as usize)?;
    for number in 0..wanted {
        let name = FileName { prefix, number };
        slots.push_reserved(make_file_slot(rt, name)?);
    }
    Ok(slots)
}

/// The slot in the file of this name, which is made anew.
fn make_file_slot<'a, M: FileMaker + AllocGlobal>(
    rt: &M,
    name: FileName<'a>,
) -> Result<FileSlot<M::File>, FilesFault<'a>>
    ensures made { IfOk result (IsMade M.makes name.entry.prefix.now name.entry.number) }
    ensures refused { IfErr result (StopsAt M.refuses name.entry) }
{
    let path = format!(in rt.alloc(); "{name}")?;
    match rt.make_file(path.as_str()) {
        Some(file) => Ok(FileSlot::new(name.number, file)),
        None => Err(FilesFault::CannotMake(name)),
    }
}
