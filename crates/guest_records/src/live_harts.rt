//! The harts of a process that are live.

ghost use Rattle.std.specs.Prelude.{◌≡◌, ◌≤◌, ◌<◌, true};
ghost use Rattle.flat_machine.specs.Process.{is_live};

use flat_machine::FlatProcess;

/// How many harts a process may start.
pub(crate) const HARTS: u32 = 8;

/// How many harts are live.
pub(crate) fn count_live(process: &FlatProcess) -> u32
    ensures { result ≤ 8 }
{
    let mut count = 0u32;
    'harts: for hart in 0..HARTS {
        if process.is_live(hart) {
            count += 1;
        }
    }
    count
}

/// The live hart before which so many are live, or the first one.
pub(crate) fn live_hart(process: &FlatProcess, place: u32) -> u32
    ensures { is_live result process.now ≡ true }
{
    let mut left = place;
    for hart in 0..HARTS {
        if process.is_live(hart) {
            if left == 0 {
                return hart;
            }
            left -= 1;
        }
    }
    process.turn_after(HARTS - 1)
}

/// How many harts were started.
pub(crate) fn count_started(process: &FlatProcess) -> u32
    ensures { result ≤ 8 }
{
    for hart in 0..HARTS {
        if process.regs(hart).is_none() {
            return hart;
        }
    }
    HARTS
}
