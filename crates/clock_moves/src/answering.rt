//! The question, and its answer.

ghost use Rattle.std.specs.Prelude.{◌≡◌, Ok, OnErr};
ghost use Rattle.clock_policy.specs.ClockPro.{question_of, gone_on, gives_up, heeded};
ghost use Rattle.clock_policy.specs.ClockPro.{test_answered, cold_answered, answered};
ghost use Rattle.clock_policy.specs.Lawful.{Lawful};

use crate::found::Found;
use crate::handed_list::HandedList;
use clock_policy::{Bit, EntryKind, Key, Refusal, Verdict};

/// The page whose accessed bit is the next answer, if any page is resident.
#[tactic(auto, unfolding(clock_policy::specs::ClockPro::question_of))]
pub fn question<L: HandedList>(list: &L) -> Option<Key>
    ensures { result ≡ question_of (L.state list.now) }
{
    list.asked_entry().map(|x| x.entry.key)
}

#[tactic(auto, unfolding(clock_policy::specs::ClockPro::gone_on))]
fn go_on<L: HandedList>(list: &mut L) -> Verdict
    ensures moved { L.state list.new ≡ (gone_on (L.state list.old)).0 }
    ensures answer { Ok result ≡ (gone_on (L.state list.old)).1 }
{
    let most = 3 * list.frames();
    list.set_asked((list.asked() + 1).min(most));
    Verdict::GoOn
}

#[tactic(auto, unfolding(clock_policy::specs::ClockPro::gives_up))]
fn give_up<L: HandedList>(list: &mut L, key: Key) -> Verdict
    ensures moved { L.state list.new ≡ (gives_up key (L.state list.old)).0 }
    ensures answer { Ok result ≡ (gives_up key (L.state list.old)).1 }
{
    list.trim();
    list.set_asked(0);
    Verdict::Victim(key)
}

/// The bit that counts: after three answers a frame with no victim, a used page is given up.
fn heeded<L: HandedList>(list: &L, bit: Bit) -> Bit
    ensures { result ≡ heeded (L.state list.now) bit }
{
    match bit {
        Bit::One if list.asked() == 3 * list.frames() => Bit::Zero,
        _ => bit,
    }
}

fn answer_test<L: HandedList>(list: &mut L, bit: Bit, x: Found) -> Verdict
    requires { L.holds list.old x }
    ensures moved { L.state list.new ≡ (test_answered bit x.entry (L.state list.old)).0 }
    ensures answer { Ok result ≡ (test_answered bit x.entry (L.state list.old)).1 }
{
    match bit {
        Bit::Zero => {
            list.shadow(x);
            give_up(list, x.entry.key)
        }
        Bit::One => {
            list.set_cold_hand(x);
            list.send_to_end(x, EntryKind::Hot);
            list.grow();
            go_on(list)
        }
        Bit::Gone => {
            list.set_cold_hand(x);
            list.remove(x);
            go_on(list)
        }
    }
}

fn answer_cold<L: HandedList>(list: &mut L, bit: Bit, x: Found) -> Verdict
    requires { L.holds list.old x }
    ensures moved { L.state list.new ≡ (cold_answered bit x.entry (L.state list.old)).0 }
    ensures answer { Ok result ≡ (cold_answered bit x.entry (L.state list.old)).1 }
{
    list.set_cold_hand(x);
    match bit {
        Bit::Zero => {
            list.remove(x);
            give_up(list, x.entry.key)
        }
        Bit::One => {
            list.send_to_end(x, EntryKind::Test);
            go_on(list)
        }
        Bit::Gone => {
            list.remove(x);
            go_on(list)
        }
    }
}

/// Answers the question of this moment.
///
/// # Errors
///
/// `NoQuestion`, where no page is resident; then nothing has changed.
#[tactic(auto, unfolding(clock_policy::specs::ClockPro::answered))]
pub fn answer<L: HandedList>(list: &mut L, bit: Bit) -> Result<Verdict, Refusal>
    requires { Lawful (L.state list.old) }
    ensures moved { L.state list.new ≡ (answered bit (L.state list.old)).0 }
    ensures answer { result ≡ (answered bit (L.state list.old)).1 }
    ensures err { OnErr result (L.state list.new ≡ L.state list.old) }
{
    let Some(x) = list.asked_entry() else {
        return Err(Refusal::NoQuestion);
    };
    let bit = heeded(list, bit);
    match x.entry.kind {
        EntryKind::Hot => {
            list.turn_to(bit, x);
            Ok(go_on(list))
        }
        EntryKind::Test => Ok(answer_test(list, bit, x)),
        EntryKind::Cold => Ok(answer_cold(list, bit, x)),
        EntryKind::Shadow => Err(Refusal::NoQuestion),
    }
}
