//! A schedule, played item by item on the core, and the text that tells it.
#![tactic(auto)]

mod playing;
mod text;

pub use playing::{Played, Replayed, ScheduleFault, replay};
pub use text::replay_text;
