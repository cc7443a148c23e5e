// A whole journal read into clear columns, byte by byte (request R-4's step) or event by event, and what is answered to it.
#![tactic(auto)]

pub mod byte_loop;
pub mod end;
pub mod event_loop;
pub mod event_rows;
pub mod event_step;
pub mod findings;
pub mod rows;
pub mod state;
pub mod step;
pub mod verdict;
