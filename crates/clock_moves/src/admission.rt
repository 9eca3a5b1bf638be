//! A page that was brought into a frame.

ghost use Rattle.std.specs.Prelude.{◌≡◌, ◌≢◌, Err, None, OnErr};
ghost use Rattle.clock_policy.specs.ClockPro.{is_full, kind_of};
ghost use Rattle.clock_policy.specs.ClockPro.{new_admitted, shadow_admitted, admitted};
ghost use Rattle.clock_policy.specs.Lawful.{HasFewEntries};

use crate::found::Found;
use crate::handed_list::HandedList;
use clock_policy::{Entry, EntryKind, Key, Kind, Refusal};

/// Whether each frame has its page.
#[inline(always)]
pub fn is_full<L: HandedList>(list: &L) -> bool
    ensures { result ≡ is_full (L.state list.now) }
{
    list.resident_count() == list.frames()
}

#[tactic(auto, using(clock_policy::proofs::LookupLaws::length_is))]
#[inline(always)]
fn admit_new<L: HandedList>(list: &mut L, key: Key) -> Result<Kind, Refusal>
    requires few { HasFewEntries (L.state list.old) }
    requires new { kind_of key (L.state list.old).entries ≡ None }
    ensures moved { L.state list.new ≡ (new_admitted key (L.state list.old)).0 }
    ensures exact { result ≡ (new_admitted key (L.state list.old)).1 }
    ensures memory { result ≢ Err Refusal.NoMemory }
    ensures err { OnErr result (L.state list.new ≡ L.state list.old) }
{
    if is_full(list) {
        return Err(Refusal::Full);
    }
    list.append(Entry {
        key,
        kind: EntryKind::Test,
    });
    Ok(Kind::Test)
}

#[inline(always)]
fn admit_shadow<L: HandedList>(list: &mut L, shadow: Found) -> Result<Kind, Refusal>
    requires { L.holds list.old shadow }
    ensures moved { L.state list.new ≡ (shadow_admitted shadow.entry.key (L.state list.old)).0 }
    ensures exact { result ≡ (shadow_admitted shadow.entry.key (L.state list.old)).1 }
    ensures memory { result ≢ Err Refusal.NoMemory }
    ensures err { OnErr result (L.state list.new ≡ L.state list.old) }
{
    if is_full(list) {
        return Err(Refusal::Full);
    }
    list.send_to_end(shadow, EntryKind::Hot);
    list.grow();
    Ok(Kind::Hot)
}

/// Adds a page that was brought into a frame, as a hot one where it is still in its test.
///
/// # Errors
///
/// `AlreadyResident`, or else `Full` where each frame has its page; then nothing has changed. Never `NoMemory`.
#[tactic(auto, unfolding(clock_policy::specs::ClockPro::admitted))]
#[inline(always)]
pub fn admit<L: HandedList>(list: &mut L, key: Key) -> Result<Kind, Refusal>
    requires { HasFewEntries (L.state list.old) }
    ensures moved { L.state list.new ≡ (admitted key (L.state list.old)).0 }
    ensures exact { result ≡ (admitted key (L.state list.old)).1 }
    ensures memory { result ≢ Err Refusal.NoMemory }
    ensures err { OnErr result (L.state list.new ≡ L.state list.old) }
{
    let Some(found) = list.find(key) else {
        return admit_new(list, key);
    };
    match found.entry.kind {
        EntryKind::Shadow => admit_shadow(list, found),
        EntryKind::Hot | EntryKind::Test | EntryKind::Cold => Err(Refusal::AlreadyResident),
    }
}
