// Row structs laid in columns and written from them, and the laws that such walks of MIR share.
#![tactic(auto)]

pub mod from_columns;
pub mod to_columns;
