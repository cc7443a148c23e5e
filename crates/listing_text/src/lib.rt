// The header and the lines of a listing, and the line of a refusal.
#![tactic(auto)]

pub mod headers;
pub mod lines;
pub mod nodes;
pub mod parts;
