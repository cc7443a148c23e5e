// `read_journal`: the reader over a compiled schema, and over a schema's record.
#![tactic(auto)]

pub mod compiled;
pub mod records;
