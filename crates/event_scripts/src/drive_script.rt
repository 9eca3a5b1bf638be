//! Whole drive scripts.

ghost use Rattle.std.specs.Prelude.{IfOk};
ghost use Rattle.text_lines.specs.Text.{lines_of};
ghost use Rattle.event_scripts.specs.DriveScript.{IsScript};

use crate::drive_line::event_on_line;
use machine_core::Event;
use std::alloc::{AllocError, Global};
use text_lines::next_line;

/// What a drive script says.
#[derive(Drop)]
pub struct DriveScript {
    /// The events of the lines above the first bad one.
    pub events: Vec<Event>,
    /// The number of the first bad line, counted from 1.
    pub bad_line: Option<u64>,
}

/// Reads a drive script up to its first bad line.
pub fn read_drive_script(alloc: Global, text: &[u8]) -> Result<DriveScript, AllocError>
    ensures { IfOk result (λ script. IsScript (lines_of text.now) script.events.items
        script.bad_line) }
{
    let mut events = Vec::new(alloc);
    let mut number = 0;
    let mut rest = text;
    while let Some((line, others)) = next_line(rest) {
        number += 1;
        match event_on_line(line) {
            Ok(Some(event)) => events.push(event)?,
            Ok(None) => {}
            Err(_) => {
                return Ok(DriveScript {
                    events,
                    bad_line: Some(number),
                });
            }
        }
        rest = others;
    }
    Ok(DriveScript {
        events,
        bad_line: None,
    })
}
