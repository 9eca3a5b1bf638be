//! How many references of a string of pages, or of guests, miss under each replacement policy, and how many pages have to be written back.
#![tactic(auto)]

mod any_player;
mod counts;
mod dirty_pages;
mod frame_numbers;
mod guests;
mod page_counts;
mod play_count;
mod player;
mod policy_name;
mod policy_set;
mod row;
mod rows;
mod stages;
mod table_size;
mod write_back_table;

pub use any_player::AnyPlayer;
pub use counts::{PolicyCount, PolicyCounts, rows_of};
pub use dirty_pages::write_backs;
pub use frame_numbers::usual_frames;
pub use guests::{guest_rows, references_of};
pub use page_counts::{count_pages, pages_in, see};
pub use play_count::{PlayCount, counts_by};
pub use player::Counting;
pub use policy_name::{PolicyName, any_served, first_writing};
pub use policy_set::PolicySet;
pub use rows::Rows;
pub use stages::{Quiet, Stage, StageListener};
pub use table_size::{FootprintPart, TableSize, frames_for, frames_for_string, has_part};
pub use write_back_table::write_back_rows;
