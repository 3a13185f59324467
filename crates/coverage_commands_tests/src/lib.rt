//! Tests of coverage_commands: words through `cover` over memory and shared areas, under faults, and through `cover_one`.
#![tactic(auto)]

#[cfg(test)]
mod tests;
