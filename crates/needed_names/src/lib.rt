// The names that a bundle needs: the union of what its paths need.
#![tactic(auto)]

pub mod alternatives;
pub mod asked;
pub mod conditions;
pub mod paths;
pub mod reachable_names;
pub mod records;
pub mod sets;
pub mod texts;
