//! The pages of which a run has spoken so far.

ghost use Rattle.std.specs.Prelude.{◌≡◌};

use clock_policy::Key;
use machine_core::{Event, Reply};
use std::alloc::{AllocError, Global};

/// Pages in the order in which they were named, each once.
#[derive(Drop)]
pub(crate) struct Named {
    keys: Vec<Key>,
}

impl Named {
    pub(crate) fn new(alloc: Global) -> Self {
        Named {
            keys: Vec::new(alloc),
        }
    }

    pub(crate) fn keys(&self) -> &[Key]
        ensures { result.now ≡ self.now.keys.items }
    {
        self.keys.as_slice()
    }

    /// Adds the pages that an event and its reply name.
    pub(crate) fn heed(&mut self, event: Event, reply: Reply) -> Result<(), AllocError> {
        if let Some(key) = key_in_event(event) {
            self.add(key)?;
        }
        match key_in_reply(event, reply) {
            Some(key) => self.add(key),
            None => Ok(()),
        }
    }

    fn add(&mut self, key: Key) -> Result<(), AllocError> {
        if self.has(key) {
            return Ok(());
        }
        self.keys.push(key)?;
        Ok(())
    }

    fn has(&self, key: Key) -> bool {
        for known in self.keys.as_slice() {
            if known.process == key.process && known.vpn == key.vpn {
                return true;
            }
        }
        false
    }
}

fn key_in_event(event: Event) -> Option<Key> {
    match event {
        Event::Collect(key) | Event::Saved(key) | Event::PageIn(key) => Some(key),
        Event::Clean(key) | Event::Copy(key) | Event::Cleaned(key) => Some(key),
        _ => None,
    }
}

fn key_in_reply(event: Event, reply: Reply) -> Option<Key> {
    match reply {
        Reply::Absent(vpn) => key_of_step(event, vpn),
        Reply::Asked { key, .. } => Some(key),
        Reply::Victim(key) => Some(key),
        _ => None,
    }
}

/// The page of this number of the process whose step was an event.
fn key_of_step(event: Event, vpn: u32) -> Option<Key> {
    match event {
        Event::Step { process, .. } => Some(Key { process, vpn }),
        _ => None,
    }
}
