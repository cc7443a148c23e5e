// Passes over columns of marks: one for each axis, tests, steps, alternatives and conditions for all rows at once.
#![tactic(auto)]

pub mod alternative_steps;
pub mod alternatives;
pub mod conditions;
pub mod downward;
pub mod inverse_axes;
pub mod mark_sets;
pub mod name_tests;
pub mod root;
pub mod rows;
pub mod scratch;
pub mod siblings;
pub mod steps;
pub mod upward;
pub mod written_steps;
