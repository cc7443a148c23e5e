// A bundle text read: axes, steps, conditions and lines, where it departs from the grammar, and the first path that passes a limit.
#![tactic(auto)]

pub mod alternative_ends;
pub mod alternatives;
pub mod axes;
pub mod conditions;
pub mod lines;
pub mod notes;
pub mod path_limits;
pub mod paths;
pub mod steps;
pub mod written_steps;
