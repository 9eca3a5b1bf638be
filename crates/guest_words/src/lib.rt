//! Words for a guest: the file of an image whose object `__guest_words` holds `argc` and `argv`. A machine knows nothing of them: it runs
//! another image.
#![tactic(auto)]

mod argv;
mod fault;
mod filling;
mod layout;
mod reading;

pub use argv::{argv_of, words_arg};
pub use fault::WordsFault;
pub use filling::with_words;
pub use reading::read_with_words;
