//! Modules, places and plans, the area of cells in which breakpoints stand, and what plants and closes them.
#![tactic(auto)]

mod areas;
mod cells;
mod checked_plan;
mod control;
mod finals;
mod images;
mod parties;
mod places;
mod plan;
mod planting;
mod sessions;
mod tallies;
mod traits;
mod words;

pub use areas::Areas;
pub use cells::Cell;
pub use control::Control;
pub use finals::Finals;
pub use images::{DataCard, Image, Images};
pub use parties::{Beat, Role, View};
pub use places::Place;
pub use plan::{Controlled, Plan};
pub use planting::plant_all;
pub use sessions::{close_open, open_next};
pub use tallies::Tally;
pub use traits::{Cells, Drains, Forks};
pub use words::{cell, first_words};
