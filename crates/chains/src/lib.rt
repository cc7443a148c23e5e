// `row_chain`: the chain of tags of a row, measured and written by recursion.
#![tactic(auto)]

pub mod handed;
pub mod lent;
pub mod records;
pub mod tags;
