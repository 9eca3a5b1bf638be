//! Room on the stack, taken before a command takes memory.

use std::alloc::Global;

/// More bytes of stack than a command of these programs takes.
const ROOM: usize = 1 << 20;

/// Takes the room on the stack that a command may need, while there is memory for it, and returns whether there is. Where memory is
/// limited the stack could not grow later, and the system would end the program by a signal. `seed` is any number that is known
/// only when the program runs, so that no compiler leaves the work out.
pub fn take_stack_room(alloc: Global, seed: usize) -> bool {
    if Vec::<u8>::with_capacity(alloc, ROOM).is_err() {
        return false;
    }
    touch(seed) == 0
}

/// Writes to all of the room, and reads one byte of it.
#[inline(never)]
fn touch(seed: usize) -> u8 {
    let room = [0u8; ROOM];
    let at = seed % ROOM;
    room[at]
}
