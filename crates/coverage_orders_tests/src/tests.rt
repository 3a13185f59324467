//! The order of the calls on areas, the gates before them, drains and what one task leaves another, all through `cover`.
mod gates;
mod held;
mod jobs;
mod noted;
mod order;
mod serving;
