//! Tests of the orders of calls on areas, over the commands.
#![tactic(auto)]

#[cfg(test)]
mod tests;
