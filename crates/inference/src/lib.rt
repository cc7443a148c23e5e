// One step of types and contexts, forward and back, over the relations of a compiled schema.
#![tactic(auto)]

pub mod back_steps;
pub mod plain_steps;
pub mod type_steps;
