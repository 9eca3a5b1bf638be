//! Environment calls and a run on flat memory.

use crate::programs::image_of_words;
use env_calls::{Env, ServeStop, Served, serve};
use flat_machine::{End, FlatProcess};
use page_memory::{FlatMemory, Page, Rights};
use rv_exec::Regs;
use shared_origins::SharedBytes;
use std::alloc::{AllocError, Global};

/// The words of a call, and what it answers.
#[derive(Clone, Copy)]
struct Call {
    number: u32,
    arguments: [u32; 3],
    answer: u32,
}

fn case(number: u32, arguments: [u32; 3], answer: u32) -> Call {
    Call {
        number,
        arguments,
        answer,
    }
}

fn calls() -> [Call; 18] {
    [
        case(64, [0, 0x0001_0FFC, 10], 4),
        case(64, [0, 0x0001_0000, 0], 0),
        case(64, [0, 0x5000_0000, 0], 0),
        case(64, [0, 0x5000_0000, 1], 0xFFFF_FFF2),
        case(214, [0, 0, 0], 0x0001_1000),
        case(214, [0x0001_1001, 0, 0], 0x0001_1001),
        case(214, [0x0001_1000, 0, 0], 0x0001_1001),
        case(214, [0x7000_0001, 0, 0], 0x0001_1001),
        case(214, [0x00FD_0000, 0, 0], 0x00FD_0000),
        case(214, [0x00FD_0001, 0, 0], 0x00FD_0000),
        case(64, [0, 0x0001_1000, 6], 6),
        case(64, [0, 0x0001_2000, 4096], 4096),
        case(1024, [0, 0, 0], 1),
        case(1024, [0, 0, 0], 2),
        case(1025, [0, 0, 0], 0),
        case(63, [0, 0x0001_0800, 5], 2),
        case(63, [0, 0x0001_0800, 5], 0),
        case(9, [0, 0, 0], 0xFFFF_FFDA),
    ]
}

/// Whether calls give their answers and leave the output and the memory that they are to leave. A call that is refused memory is made
/// again.
pub(crate) fn serves_calls(alloc: Global) -> Result<bool, AllocError> {
    let mut memory = one_page(alloc)?;
    let input = vec![in alloc; b'a', b'b']?;
    let mut env = Env::new(alloc, SharedBytes::new(alloc, input)?, 0x1_1000, 65);
    if !answers_each(&mut env, &mut memory)? {
        return Ok(false);
    }
    Ok(env.output().len() == 4106 && is_left(&memory))
}

/// Memory whose page 0x10 may be read and written.
fn one_page(alloc: Global) -> Result<FlatMemory, AllocError> {
    let mut memory = FlatMemory::with_capacity(alloc, 1)?;
    memory.map_page(0x10, Page::zeroed(alloc, Rights::READ_WRITE)?)?;
    Ok(memory)
}

/// Whether the memory has what was read, and a page up to the break.
fn is_left(memory: &FlatMemory) -> bool {
    let ends_where_broken = memory.byte(0x00FC_FFFF) == Some(0) && memory.byte(0x00FD_0000) == None;
    ends_where_broken && memory.byte(0x0001_0801) == Some(b'b')
}

fn answers_each(env: &mut Env, memory: &mut FlatMemory) -> Result<bool, AllocError> {
    let mut regs = Regs::new(0x1_0000);
    for call in calls() {
        if !answers_one(env, &mut regs, memory, call)? {
            return Ok(false);
        }
    }
    Ok(true)
}

fn answers_one(
    env: &mut Env,
    regs: &mut Regs,
    memory: &mut FlatMemory,
    call: Call,
) -> Result<bool, AllocError> {
    let [a0, a1, a2] = call.arguments;
    regs.set_x(17, call.number);
    regs.set_x(10, a0);
    regs.set_x(11, a1);
    regs.set_x(12, a2);
    match serve_again(env, regs, memory) {
        Ok(Served::Continue | Served::Spawned { .. }) => Ok(regs.x(10) == call.answer),
        Err(ServeStop::NoMemory) => Err(AllocError),
        _ => Ok(false),
    }
}

fn serve_again(
    env: &mut Env,
    regs: &mut Regs,
    memory: &mut FlatMemory,
) -> Result<Served, ServeStop> {
    match serve(env, 0, regs, memory) {
        Err(ServeStop::NoMemory) => serve(env, 0, regs, memory),
        answer => answer,
    }
}

/// Whether a process prints its line and ends, after as many steps as it has.
pub(crate) fn runs_by_turns(alloc: Global) -> Result<bool, AllocError> {
    let image = image_of_words(alloc)?;
    let mut process = FlatProcess::new(alloc, &image, Vec::new(alloc))?;
    let before = match process.run_for(100) {
        Ok(steps) => return Ok(steps == 9 && has_ended(&process)),
        Err(stop) => stop.steps,
    };
    match process.run_for(100) {
        Ok(steps) => Ok(steps.wrapping_add(before) == 9 && has_ended(&process)),
        Err(_) => Err(AllocError),
    }
}

fn has_ended(process: &FlatProcess) -> bool {
    process.output() == b"hi\n".as_slice() && process.end() == Some(End::Exited(0))
}
