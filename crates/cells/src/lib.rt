#![tactic(auto)]

// What is lent and answered: cells and columns cleared and written, sets of rows as columns of marks, text and numbers written, how many cells
// a call answers.
pub mod columns;
pub mod lent;
pub mod row_sets;
pub mod written_text;
