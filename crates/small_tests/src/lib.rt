//! Tests of smaller crates, a file for each.
#![tactic(auto)]

#[cfg(test)]
mod tests;
