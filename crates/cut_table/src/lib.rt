// `cut_table`: a table that is handed in cut to 64 bits under a schema's record.
#![tactic(auto)]

pub mod answers;
pub mod handed;
pub mod lent;
pub mod records;
pub mod schema_sets;
