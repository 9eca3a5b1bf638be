//! A conversation with a debugger: it answers line after line of an input, each at once.
#![tactic(auto)]

mod answers;
mod conversation;
mod hexadecimal;
mod input_lines;
mod lines;
mod prompted_input;
mod reply;
mod reply_text;
mod turn;

pub use answers::answer;
pub use conversation::{SessionFault, converse};
pub use lines::{DebugLine, Dialect, debug_line};
pub use prompted_input::PromptedInput;
pub use reply::DebugReply;
