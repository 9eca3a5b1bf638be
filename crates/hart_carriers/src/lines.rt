//! The reports of all processes of a machine, by their numbers, with what was published last of each.

ghost use Rattle.std.specs.Prelude.{◌≡◌, ◌≤◌, ◌<◌, ◌&&◌, ◌++◌, ◌∷◌, length, map, vec_len, vec_capacity};
ghost use Rattle.std.specs.Prelude.{true, []};
ghost use Rattle.hart_carriers.specs.FlatLines.{counts_of, StandsForRuns};
ghost use Rattle.hart_carriers.specs.Telling.{Adds};
ghost use Rattle.machine_sides.specs.Reporting.{come_to, told as line_of_report};

use crate::line::{Ran, line_of};
use elf_image::Image;
use machine_sides::ProcessReport;
use status_cell::Status;
use std::sync::ledger::Ledger;
use swap_slots::SwapSlot;

/// What the processes of a machine have come to.
#[derive(Drop)]
pub struct Told {
    /// By the processes' numbers.
    pub processes: Vec<ProcessReport>,
    /// What was published last of each.
    pub published: Vec<Status>,
    /// Whether there is one for each image and input that the machine was given, and each process was started from its own.
    pub started: bool,
}

/// Reports what processes have come to that were to run these images on these inputs, in lists whose room is there. A process for
/// which none is there is not reported.
pub fn tell<L: Ledger, S: SwapSlot>(
    processes: Vec<Ran<L, S>>,
    handed: &[(Image, Vec<u8>)],
    room: Vec<ProcessReport>,
    statuses: Vec<Status>,
) -> Told
    requires empty { room.items ≡ [] }
    requires room { length handed.now ≤ vec_capacity room }
    requires blank { statuses.items ≡ [] }
    requires space { length handed.now ≤ vec_capacity statuses }
    ensures stands { S.honest → result.started ≡ true →
        StandsForRuns handed.entry.now result.processes.items }
    ensures last { result.published.items ≡ map counts_of result.processes.items }
    ensures many { result.started ≡ true → vec_len result.processes ≡ length handed.entry.now }
    ensures told { result.started ≡ true → map line_of_report result.processes.items ≡
        map (λ ran. come_to ran.process) processes.items }
{
    let mut told = Told {
        processes: room,
        published: statuses,
        started: true,
    };
    for ran in processes {
        if told.processes.len() < handed.len() {
            add(&mut told, ran, handed);
        } else {
            told.started = false;
        }
    }
    close(told, handed.len())
}

/// What is reported, where so many are to be.
fn close(told: Told, wanted: usize) -> Told
    ensures processes { result.processes ≡ told.processes }
    ensures published { result.published ≡ told.published }
    ensures started { result.started ≡ true → told.started ≡ true }
    ensures many { result.started ≡ true → vec_len told.processes ≡ wanted }
{
    let Told {
        processes,
        published,
        started,
    } = told;
    if processes.len() != wanted {
        return Told {
            processes,
            published,
            started: false,
        };
    }
    Told {
        processes,
        published,
        started,
    }
}

/// Adds what the next process has come to. They were all started from what was handed in if those before were, and it too.
fn add<L: Ledger, S: SwapSlot>(told: &mut Told, ran: Ran<L, S>, handed: &[(Image, Vec<u8>)])
    requires known { vec_len told.old.processes < length handed.now }
    requires room { length handed.now ≤ vec_capacity told.old.processes }
    requires space { length handed.now ≤ vec_capacity told.old.published }
    requires each { vec_len told.old.published ≡ vec_len told.old.processes }
    ensures adds { Adds S.honest handed.now told.old told.new }
    ensures told { map line_of_report told.new.processes.items ≡
        map line_of_report told.old.processes.items ++ come_to ran.process ∷ [] }
    ensures room { vec_capacity told.new.processes ≡ vec_capacity told.old.processes }
    ensures space { vec_capacity told.new.published ≡ vec_capacity told.old.published }
{
    let (image, input) = &handed[told.processes.len()];
    let line = line_of(ran, image, input.as_slice());
    told.started = both(told.started, line.started);
    told.published.push_reserved(line.last);
    told.processes.push_reserved(line.report);
}

fn both(a: bool, b: bool) -> bool
    ensures { result ≡ a && b }
{
    a && b
}
