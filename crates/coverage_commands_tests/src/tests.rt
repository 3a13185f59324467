//! Words that are served over memory and over areas that threads share. What is written for an input stands in tests/rows.
mod extras;
mod faults;
mod jobs;
mod serving;
