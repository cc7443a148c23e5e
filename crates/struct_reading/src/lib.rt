// `read_journal_rows`: a journal read into lent row structs.
#![tactic(auto)]

pub mod entry;
