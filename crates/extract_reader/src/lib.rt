// All rows of an extract, read into clear columns, field by field, with the open elements beside.
#![tactic(auto)]

pub mod field_ends;
pub mod field_rows;
pub mod field_tests;
pub mod field_values;
pub mod fields;
pub mod levels;
pub mod reading;
pub mod records;
pub mod rows;
pub mod table;
