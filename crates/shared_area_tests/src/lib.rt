//! Tests of shared_area: passes in turn and two threads at once, traps that are settled late, and how many words an area has.
#![tactic(auto)]

#[cfg(test)]
mod tests;
