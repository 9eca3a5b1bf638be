//! A victim that could not leave its frame.

ghost use Rattle.std.specs.Prelude.{◌≡◌, None, OnErr};
ghost use Rattle.clock_policy.specs.ClockPro.{kind_of};
ghost use Rattle.clock_policy.specs.ClockPro.{new_restored, shadow_restored, restored};
ghost use Rattle.clock_policy.specs.Lawful.{HasFewEntries};

use crate::admission::is_full;
use crate::found::Found;
use crate::handed_list::HandedList;
use clock_policy::{Entry, EntryKind, Key, Refusal};

#[tactic(auto, using(clock_policy::proofs::LookupLaws::length_is))]
fn restore_new<L: HandedList>(list: &mut L, key: Key) -> Result<(), Refusal>
    requires few { HasFewEntries (L.state list.old) }
    requires new { kind_of key (L.state list.old).entries ≡ None }
    ensures moved { L.state list.new ≡ (new_restored key (L.state list.old)).0 }
    ensures exact { result ≡ (new_restored key (L.state list.old)).1 }
    ensures err { OnErr result (L.state list.new ≡ L.state list.old) }
{
    if is_full(list) {
        return Err(Refusal::Full);
    }
    list.append(Entry {
        key,
        kind: EntryKind::Test,
    });
    Ok(())
}

fn restore_shadow<L: HandedList>(list: &mut L, shadow: Found) -> Result<(), Refusal>
    requires { L.holds list.old shadow }
    ensures moved { L.state list.new ≡ (shadow_restored shadow.entry.key (L.state list.old)).0 }
    ensures exact { result ≡ (shadow_restored shadow.entry.key (L.state list.old)).1 }
    ensures err { OnErr result (L.state list.new ≡ L.state list.old) }
{
    if is_full(list) {
        return Err(Refusal::Full);
    }
    list.mark(shadow, EntryKind::Test);
    Ok(())
}

/// Takes a victim back that could not leave its frame.
///
/// # Errors
///
/// `AlreadyResident`, or else `Full` where each frame has its page; then nothing has changed.
#[tactic(auto, unfolding(clock_policy::specs::ClockPro::restored))]
pub fn restore<L: HandedList>(list: &mut L, key: Key) -> Result<(), Refusal>
    requires { HasFewEntries (L.state list.old) }
    ensures moved { L.state list.new ≡ (restored key (L.state list.old)).0 }
    ensures exact { result ≡ (restored key (L.state list.old)).1 }
    ensures err { OnErr result (L.state list.new ≡ L.state list.old) }
{
    let Some(found) = list.find(key) else {
        return restore_new(list, key);
    };
    match found.entry.kind {
        EntryKind::Shadow => restore_shadow(list, found),
        EntryKind::Hot | EntryKind::Test | EntryKind::Cold => Err(Refusal::AlreadyResident),
    }
}
