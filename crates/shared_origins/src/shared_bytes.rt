//! Bytes that several holders share, such as the input of a process.

ghost use Rattle.std.specs.Prelude.{◌≡◌, IfOk};

use std::alloc::{AllocError, Global};
use std::marker::Model;
use std::sync::Arc;

/// Bytes that several hold, as an input.
#[derive(Drop)]
pub struct SharedBytes {
    bytes: Arc<Vec<u8>>,
}

impl Model for SharedBytes {
    ghost use Rattle.std.specs.Prelude.{ℕ, List};
    ghost use Rattle.std.specs.Arc.{arc_value};

    ghost Value = { List ℕ };

    ghost view = { λ shared. (arc_value shared.bytes).items };
}

impl SharedBytes {
    /// Bytes that one holds so far.
    pub fn new(alloc: Global, bytes: Vec<u8>) -> Result<Self, AllocError>
        ensures { IfOk result (λ shared. shared ≡ bytes.items) }
    {
        Ok(SharedBytes {
            bytes: Arc::new(alloc, bytes)?,
        })
    }

    /// The same bytes for one more holder. Takes no memory: it is refused where 2^63 - 1 hold them.
    pub fn share(&self) -> Result<Self, AllocError>
        ensures { IfOk result (λ shared. shared ≡ self.now) }
    {
        Ok(SharedBytes {
            bytes: Arc::try_clone(&self.bytes)?,
        })
    }

    pub fn as_slice(&self) -> &[u8]
        ensures { result.now ≡ self.now }
    {
        self.bytes.as_slice()
    }
}
