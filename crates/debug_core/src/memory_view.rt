//! Looks at memory.

ghost use Rattle.std.specs.Prelude.{◌≡◌, ℕ, ◌+◌, ◌^◌, ◌≤◌, true, map, Some, IfOk, IfErr, OnOk, length};
ghost use Rattle.debug_core.specs.Debugging.{RefusesLook};
ghost use Rattle.debug_core.specs.Limits.{CanRead};
ghost use Rattle.debug_core.specs.Points.{all_there, bytes_from, IsRange};

use crate::debugger::{Debugger, is_range};
use crate::refusal::DebugRefusal;
use crate::target::{Target, TargetFault};
use std::alloc::{AllocError, Global};

/// How many bytes a look may have.
const MOST_BYTES: u32 = 4096;

impl<T: Target> Debugger<T> {
    /// So many bytes of memory, 1 to 4096, from an address on.
    pub fn mem(&mut self, alloc: Global, address: u32, length: u32) -> Result<Vec<u8>, DebugRefusal>
        ensures ok { IfOk result (λ bytes. IsRange 4096 address length ×
            (map Some bytes.items ≡ bytes_from (T.shown self.old.target).memory address length)) }
        ensures readable { OnOk result (CanRead (T.limits self.old.target) address length) }
        ensures refused { IfErr result (λ why.
            RefusesLook (T.limits self.old.target) why address length
            (T.shown self.old.target).memory) }
        ensures shown { T.shown self.new.target ≡ T.shown self.old.target }
        ensures points { self.new.points ≡ self.old.points }
        ensures turn { self.new.turn ≡ self.old.turn }
    {
        if !is_range(MOST_BYTES, address, length) {
            return Err(DebugRefusal::BadRange);
        }
        if !are_mapped(&self.target, address, length) {
            return Err(DebugRefusal::NotMapped);
        }
        let mut room = [None; MOST_BYTES as usize];
        let bytes = &mut room[..length as usize];
        match self.target.read(address, bytes) {
            Err(TargetFault::Purged) => Err(DebugRefusal::Purged),
            Err(TargetFault::Device) => Err(DebugRefusal::Device),
            Ok(()) => match copied(alloc, bytes) {
                Ok(copy) => Ok(copy),
                Err(AllocError) => Err(DebugRefusal::NoMemory),
            },
        }
    }
}

/// Whether a page is mapped at each of so many addresses.
fn are_mapped<T: Target>(target: &T, address: u32, count: u32) -> bool
    requires { address + count ≤ 2 ^ 32 }
    ensures { result ≡ all_there (bytes_from (T.shown target.now).memory address count) }
{
    'addresses: for i in 0..count {
        if !target.is_mapped(address + i) {
            return false;
        }
    }
    true
}

/// The bytes, all of which are there.
fn copied(alloc: Global, bytes: &[Option<u8>]) -> Result<Vec<u8>, AllocError>
    requires { all_there bytes.now ≡ true }
    ensures { IfOk result (λ copy. map Some copy.items ≡ bytes.now) }
{
    let mut copy = Vec::with_capacity(alloc, bytes.len())?;
    'bytes: for i in 0..bytes.len() {
        copy.push_reserved(bytes[i].unwrap_or(0));
    }
    Ok(copy)
}
