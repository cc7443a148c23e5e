// A journal's bytes turned into events: one byte in each mode, a loop for each mode that lasts, and entities recognised at once.
#![tactic(auto)]

pub mod character_data;
pub mod data_loops;
pub mod data_runs;
pub mod entities;
pub mod kinds;
pub mod mode_loops;
pub mod state;
pub mod step;
pub mod tag_loops;
pub mod tags;
pub mod whole_entities;
pub mod whole_texts;
