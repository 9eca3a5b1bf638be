//! The replacement list, call by call.

use clock_policy::{Bit, Clock, Entry, EntryKind, Key, Kind, Refusal, Verdict};
use std::alloc::{AllocError, Global};

#[derive(Clone, Copy)]
enum Call {
    Admit(u32),
    Answer(Bit),
    Restore(u32),
    Withdraw(u32),
}

#[derive(Clone, Copy, PartialEq, Eq)]
enum Told {
    Is(Kind),
    Decided(Verdict),
    Done,
    Refused(Refusal),
}

fn key(vpn: u32) -> Key {
    Key { process: 0, vpn }
}

fn victim(vpn: u32) -> Told {
    Told::Decided(Verdict::Victim(key(vpn)))
}

/// On four frames: pages go out as others come in, one comes back while its shadow is listed, and refusals come by name.
fn calls() -> [(Call, Told); 18] {
    let test = Told::Is(Kind::Test);
    [
        (Call::Admit(1), test),
        (Call::Admit(2), test),
        (Call::Admit(3), test),
        (Call::Admit(4), test),
        (Call::Answer(Bit::Zero), victim(1)),
        (Call::Admit(5), test),
        (Call::Answer(Bit::One), Told::Decided(Verdict::GoOn)),
        (Call::Answer(Bit::Zero), victim(3)),
        (Call::Admit(1), Told::Is(Kind::Hot)),
        (Call::Admit(1), Told::Refused(Refusal::AlreadyResident)),
        (Call::Admit(6), Told::Refused(Refusal::Full)),
        (Call::Withdraw(9), Told::Refused(Refusal::NotThere)),
        (Call::Answer(Bit::One), Told::Decided(Verdict::GoOn)),
        (Call::Answer(Bit::Zero), victim(4)),
        (Call::Restore(4), Told::Done),
        (Call::Restore(4), Told::Refused(Refusal::AlreadyResident)),
        (Call::Withdraw(4), Told::Done),
        (Call::Withdraw(4), Told::Refused(Refusal::NotThere)),
    ]
}

/// Whether a list gives these answers. A call that is refused memory is made again.
pub(crate) fn answers_calls<C: Clock>(alloc: Global) -> Result<bool, AllocError> {
    let Ok(mut clock) = C::new(alloc, 4) else {
        return Err(AllocError);
    };
    for (call, answer) in calls() {
        if make_again(&mut clock, call)? != answer {
            return Ok(false);
        }
    }
    has_entries(alloc, &clock)
}

fn make_again<C: Clock>(clock: &mut C, call: Call) -> Result<Told, AllocError> {
    let mut told = make(clock, call);
    if told == Told::Refused(Refusal::NoMemory) {
        told = make(clock, call);
    }
    if told == Told::Refused(Refusal::NoMemory) {
        return Err(AllocError);
    }
    Ok(told)
}

fn make<C: Clock>(clock: &mut C, call: Call) -> Told {
    match call {
        Call::Admit(vpn) => match clock.admit(key(vpn)) {
            Ok(kind) => Told::Is(kind),
            Err(refusal) => Told::Refused(refusal),
        },
        Call::Answer(bit) => match clock.answer(bit) {
            Ok(verdict) => Told::Decided(verdict),
            Err(refusal) => Told::Refused(refusal),
        },
        Call::Restore(vpn) => done(clock.restore(key(vpn))),
        Call::Withdraw(vpn) => done(clock.withdraw(key(vpn))),
    }
}

fn done(answer: Result<(), Refusal>) -> Told {
    match answer {
        Ok(()) => Told::Done,
        Err(refusal) => Told::Refused(refusal),
    }
}

/// Whether the list has these entries in the end.
fn has_entries<C: Clock>(alloc: Global, clock: &C) -> Result<bool, AllocError> {
    let mut entries: Vec<Entry> = Vec::new(alloc);
    clock.copy_entries(&mut entries)?;
    let wanted = [
        (key(1), EntryKind::Hot),
        (key(5), EntryKind::Cold),
        (key(2), EntryKind::Hot),
    ];
    if entries.len() != wanted.len() {
        return Ok(false);
    }
    let same = entries.iter().zip(wanted.iter()).all(|(entry, listed)| {
        entry.key == listed.0 && entry.kind == listed.1
    });
    Ok(same)
}
