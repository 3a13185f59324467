//! Tests of s370_exec: every operation against vectors from outside, and the supervisor call that a step executes.
#![tactic(auto)]

#[cfg(test)]
mod tests;
