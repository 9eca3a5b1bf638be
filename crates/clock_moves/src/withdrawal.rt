//! Removes the entry of a page from the replacement list.

ghost use Rattle.std.specs.Prelude.{◌≡◌, OnErr};
ghost use Rattle.clock_policy.specs.ClockPro.{withdrawn};

use crate::handed_list::HandedList;
use clock_policy::{Key, Refusal};

/// Forgets a page.
///
/// # Errors
///
/// `NotThere`, where the list has no entry of it; then nothing has changed.
#[tactic(auto, unfolding(clock_policy::specs::ClockPro::withdrawn))]
pub fn withdraw<L: HandedList>(list: &mut L, key: Key) -> Result<(), Refusal>
    ensures moved { L.state list.new ≡ (withdrawn key (L.state list.old)).0 }
    ensures answer { result ≡ (withdrawn key (L.state list.old)).1 }
    ensures err { OnErr result (L.state list.new ≡ L.state list.old) }
{
    let Some(found) = list.find(key) else {
        return Err(Refusal::NotThere);
    };
    list.remove(found);
    Ok(())
}
