//! Watches: the bytes of each as they were, against those of a process; and breaks.

ghost use Rattle.std.specs.Prelude.{◌≡◌, ◌≤◌, length};
ghost use Rattle.std.specs.List.{position_from};
ghost use Rattle.page_memory.specs.Memory.{Memory};
ghost use Rattle.flat_machine.specs.Process.{hart_registers};
ghost use Rattle.debug_core.specs.Points.{is_hit, ArePoints, IsPoint};
ghost use Rattle.debug_core.specs.Seen.{AreSeen, IsSeen};
ghost use Rattle.debug_core.specs.Stops.{break_at};
ghost use Rattle.run_paths.specs.Meeting.{first_hit};

use debug_core::{MOST_WATCHED, Point, any_changed, break_before, read_all};
use flat_machine::FlatProcess;

/// The bytes of a watch, and nothing after them.
pub(crate) type Window = [Option<u8>; MOST_WATCHED as usize];

/// The window of a watch before anything was seen.
pub(crate) const NOTHING: Window = [None; MOST_WATCHED as usize];

/// The number of the first watch of which a byte has changed since it was seen. All are seen as they are now.
pub(crate) fn look(
    process: &FlatProcess,
    points: &[Option<Point>],
    seen: &mut [Window],
) -> Option<u32>
    requires points { ArePoints points.now }
    requires room { length points.now ≤ length seen.old }
    requires few { length points.now ≤ 32 }
    ensures hit { (was : Memory) → AreSeen points.now seen.old was →
        result ≡ position_from (is_hit was process.now.memory) 0 points.now }
    ensures seen { AreSeen points.now seen.new process.now.memory }
    ensures room { length seen.new ≡ length seen.old }
{
    let mut hit = None;
    'points: for number in 0..points.len() {
        let is_hit = look_at(process, points[number], &mut seen[number]);
        hit = first_hit(hit, number as u32, is_hit);
    }
    hit
}

/// The first of some numbers: the one so far, else this one, if it is one.
fn first_hit(hit: Option<u32>, number: u32, is_hit: bool) -> Option<u32>
    ensures { result ≡ first_hit hit number is_hit }
{
    match hit {
        Some(first) => Some(first),
        None => { if is_hit { Some(number) } else { None } }
    }
}

/// Whether a point is a watch of which a byte has changed since it was seen. It is then seen as it is now.
fn look_at(process: &FlatProcess, point: Option<Point>, seen: &mut Window) -> bool
    requires point { IsPoint point }
    ensures hit { (was : Memory) → IsSeen point seen.old was →
        result ≡ is_hit was process.now.memory point }
    ensures seen { IsSeen point seen.new process.now.memory }
{
    let Some(Point::Watch { address, length }) = point else {
        return false;
    };
    let mut now = NOTHING;
    read_all(process, address, &mut now[..length as usize]);
    let hit = any_changed(&seen[..length as usize], &now[..length as usize]);
    *seen = now;
    hit
}

/// The number of the first break that a hart is at.
pub(crate) fn break_at(process: &FlatProcess, hart: u32, points: &[Option<Point>]) -> Option<u32>
    requires few { length points.now ≤ 32 }
    ensures { result ≡ break_at points.now (hart_registers hart process.now) }
{
    let pc = process.regs(hart)?.pc();
    break_before(pc, points)
}
