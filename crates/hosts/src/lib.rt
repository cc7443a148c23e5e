// What the two functions for C share: the texts judged in turn, results by value.
#![tactic(auto)]

pub mod results;
pub mod texts;
