//! Page replacement policies of textbooks that go by the clock's ticks, or by which references write: NRU, aging and WSClock; and second chance.
#![tactic(auto)]

mod arrival;
mod framed;
mod hand_step;
mod laws;
mod marks;
mod page_use;
mod ticked;
mod ticked_rule;
mod ticked_state;
mod ticks;
mod working_set_time;
mod writing_policy;
mod ws_clock;

pub use arrival::{Arrival, second_chance};
pub use laws::ticked_policies_are_plays;
pub use page_use::PageUse;
pub use ticked_rule::TickedRule;
pub use ticked_state::Ticked;
pub use ticks::{AgingTicks, NruTicks};
pub use working_set_time::WorkingSetTime;
pub use writing_policy::WritingPolicy;
pub use ws_clock::WsClock;
