// `cut_table_rows`: a table of row structs cut into others.
#![tactic(auto)]

pub mod entry;
