//! Pictures of a machine, one after each event of a run, for a page that shows them one by one.
//!
//! Each picture is read from the machine by its readers; nothing in it is worked out again.
#![tactic(auto)]

mod drive;
mod event_line;
mod film_json;
mod hart_json;
mod json_text;
mod named;
mod output;
mod picture;
mod picture_json;
mod process_json;
mod program;
mod scene;
mod serial_film;
mod shown_hart;
mod shown_page;
mod shown_process;
mod shown_table;

pub use drive::film;
pub use film_json::{SCENES_OF_A_PIECE, write_film};
pub use output::Output;
pub use picture::{Picture, picture_of};
pub use program::start;
pub use scene::{Film, Scene};
pub use serial_film::film_run;
pub use shown_hart::ShownHart;
pub use shown_page::ShownPage;
pub use shown_process::ShownProcess;
pub use shown_table::{ShownTable, TableWord};
