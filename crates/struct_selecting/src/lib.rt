// `select_nodes_rows`: nodes selected on a table of row structs.
#![tactic(auto)]

pub mod entry;
