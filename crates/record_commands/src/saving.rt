//! Records in a folder, each named by the seed of its run.

ghost use Rattle.std.specs.Prelude.{◌≡◌, ◌↔◌, IfErr, IfOk, IsFalse, IsTrue, OnOk, option_map};
ghost use Rattle.run_records.specs.Records.{record_text, value_of};
ghost use Rattle.record_commands.specs.Saved.{HoldsOther, IfOther, Replaces, SavesIn, SparesOthers, record_name};

use crate::fault::RecordsFault;
use guest_io::WholeFiles;
use image_files::{Fault, Folder};
use run_records::{Fingerprint, Record, RecordFault, read_record, write_record};
use std::alloc::{AllocError, Global};

/// Saves the record of the run by a seed in a folder, where one is named. A record of another image is not replaced.
pub(crate) fn save<'a, R: Folder + WholeFiles + AllocGlobal>(
    rt: &R,
    folder: Option<&'a str>,
    seed: u64,
    told: &Record,
) -> Result<(), RecordsFault<'a>>
    ensures saved { OnOk result (SavesIn (Replaces R.gives R.withholds R.takes) (option_map (λ s.
        s.now) folder.entry) seed (value_of told.now)) }
    ensures other { IfErr result (IfOther (λ name. HoldsOther R.gives name told.now.image)) }
{
    let Some(folder) = folder else {
        return Ok(());
    };
    let name = record_name(rt.alloc(), folder, seed)?;
    if !is_free(rt, name.as_str(), &told.image)? {
        return Err(RecordsFault::OtherRecord(folder, seed));
    }
    let text = text_of(rt.alloc(), told)?;
    match rt.put(name.as_str(), text.as_slice()) {
        Ok(()) => Ok(()),
        Err(_) => Err(RecordsFault::NotSaved(folder, seed)),
    }
}

/// The name of the record of the run by a seed.
fn record_name(alloc: Global, folder: &str, seed: u64) -> Result<String, AllocError>
    ensures { IfOk result (λ name. name.bytes.items ≡ record_name folder.now seed) }
{
    let name = format!(in alloc; "{folder}/{seed}.record")?;
    Ok(name)
}

/// Whether a file holds no record of another image.
fn is_free<R: Folder + AllocGlobal>(
    rt: &R,
    name: &str,
    image: &Fingerprint,
) -> Result<bool, AllocError>
    ensures yes { IfOk result (λ is. IsTrue is → SparesOthers R.gives R.withholds name.now
        image.now) }
    ensures no { IfOk result (λ is. IsFalse is → HoldsOther R.gives name.now image.now) }
{
    let text = match rt.read(name) {
        Ok(text) => text,
        Err(Fault::NoMemory) => return Err(AllocError),
        Err(_) => return Ok(true),
    };
    match read_record(rt.alloc(), text.as_slice()) {
        Ok(old) => Ok(is_same(&old.image, image)),
        Err(RecordFault::NoMemory) => Err(AllocError),
        Err(_) => Ok(true),
    }
}

fn is_same(one: &Fingerprint, other: &Fingerprint) -> bool
    ensures { IsTrue result ↔ (one.now ≡ other.now) }
{
    *one == *other
}

/// The text of a record.
fn text_of(alloc: Global, told: &Record) -> Result<Vec<u8>, AllocError>
    ensures { IfOk result (λ text. text.items ≡ record_text (value_of told.now)) }
{
    let mut text = Vec::new(alloc);
    match write_record(told, &mut text) {
        Ok(()) => Ok(text),
        Err(_) => Err(AllocError),
    }
}
