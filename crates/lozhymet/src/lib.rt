#![tactic(auto)]

// The public library in one crate: every function that another project calls. Each is proved in the crate that it comes from, and none has a
// `requires`; docs/PROMISES.md lists what each is equal to. A caller names the types by the crates that declare them. A C host links the crate
// `library`, whose two functions stand here, too.

// Schemas and bundles: texts read into records, and refusal 1 for a record.
pub use bundle::reader::read_bundle;
pub use bundle::record_tests::is_bundle_record;
pub use schema_reader::{is_schema_record, read_schema};

// The needed names of a bundle, as 64 bits.
pub use needed_names::records::needed_names;

// Tables in lent columns: a journal read into them, a cut, the text and the chain of a row.
pub use chains::records::row_chain;
pub use cut_table::records::cut_table;
pub use journal::records::read_journal;
pub use tables::row_text::{row_text, row_text_place};

// Extracts written and read.
pub use extract_reader::records::read_extract;
pub use extract_writer::write_extract;

// Selecting on a table.
pub use selection::records::select_nodes;

// The same over lent row structs.
pub use struct_cutting::entry::cut_table_rows;
pub use struct_reading::entry::read_journal_rows;
pub use struct_selecting::entry::select_nodes_rows;

// For a C host.
pub use library::{host_make_extract, host_select};
