//! Branches: whether an instruction branches, where to, and what it leaves in the registers.
#![tactic(auto)]

mod branches;

pub use branches::{
    branch, branch_and_link, branch_and_link_register, branch_on_condition,
    branch_on_condition_register, branch_on_count, branch_on_count_register, condition_goes,
    count_left, go_on_condition, go_on_count, outcome,
};
