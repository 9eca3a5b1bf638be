//! A film as JSON, a value a line: its head, then its scenes, and then what the processes have written.

use crate::event_line::EventLine;
use crate::json_text::ByteText;
use crate::output::Output;
use crate::picture::Picture;
use crate::picture_json::write_picture;
use crate::scene::{Film, Scene};
use event_scripts::ReplyLine;
use std::io;
use std::io::Write;

/// One scene in so many is written whole, so that a reader can begin there.
pub const SCENES_OF_A_PIECE: u64 = 500;

/// Writes a film of processes that run images of these names.
pub fn write_film<W: Write>(film: &Film, names: &[&str], out: &mut W) -> io::Result<()> {
    write_head(film.frames, names, out)?;
    write_still(&film.first, out)?;
    write_scenes(film, out)?;
    write_outputs(film.outputs.as_slice(), out)
}

/// Writes of how many frames the machine is, and the names of the images.
pub(crate) fn write_head<W: Write>(frames: u32, names: &[&str], out: &mut W) -> io::Result<()> {
    write!(out, "{{\"frames\":{frames},\"names\":[")?;
    let mut comma = "";
    for name in names {
        write!(out, "{comma}{}", ByteText(name.as_bytes()))?;
        comma = ",";
    }
    writeln!(out, "]}}")
}

/// Writes the picture of a machine to which nothing happens: at the start, or once the run is over.
pub(crate) fn write_still<W: Write>(picture: &Picture, out: &mut W) -> io::Result<()> {
    write!(out, "{{\"event\":null,\"reply\":null")?;
    write_picture(picture, None, out)
}

fn write_scenes<W: Write>(film: &Film, out: &mut W) -> io::Result<()> {
    let mut before = &film.first;
    for (place, scene) in film.scenes.as_slice().iter().enumerate() {
        write_scene(place as u64, scene, before, out)?;
        before = &scene.picture;
    }
    Ok(())
}

/// Writes the scene that follows so many others: its differences from the picture before it, or at regular intervals the whole picture.
pub(crate) fn write_scene<W: Write>(
    others: u64,
    scene: &Scene,
    before: &Picture,
    out: &mut W,
) -> io::Result<()> {
    let event = EventLine(scene.event);
    let reply = ReplyLine(scene.reply);
    write!(out, "{{\"event\":\"{event}\",\"reply\":\"{reply}\"")?;
    if others % SCENES_OF_A_PIECE == SCENES_OF_A_PIECE - 1 {
        write_picture(&scene.picture, None, out)
    } else {
        write_picture(&scene.picture, Some(before), out)
    }
}

/// Writes what each process has written.
pub(crate) fn write_outputs<W: Write>(outputs: &[Output], out: &mut W) -> io::Result<()> {
    write!(out, "{{\"outputs\":[")?;
    let mut comma = "";
    for output in outputs {
        write!(out, "{comma}{}", ByteText(output.bytes.as_slice()))?;
        comma = ",";
    }
    writeln!(out, "]}}")
}
