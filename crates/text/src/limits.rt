// Every limit of document 01, in one place: contracts cite the definitions of the same names (text_spec's Limits), so a proof fails where the two differ.

// Schema: declarations, names in a model, bytes, open parentheses, bytes of a name.
pub const MAX_DECLARATIONS: usize = 32;

pub const MAX_MODEL_NAMES: usize = 64;

pub const MAX_SCHEMA_BYTES: usize = 8192;

pub const MAX_GROUPS: usize = 8;

pub const MAX_NAME_BYTES: usize = 31;

// Journal: bytes, depth of elements, nodes, raw bytes in a text.
pub const MAX_JOURNAL_BYTES: usize = 1048576;

pub const MAX_DEPTH: usize = 64;

pub const MAX_NODES: usize = 65535;

pub const MAX_TEXT_BYTES: usize = 4096;

// Paths: steps outside brackets, alternatives, steps in an alternative, bytes without the line feed; paths and bytes of a bundle.
pub const MAX_STEPS: usize = 16;

pub const MAX_ALTERNATIVES: usize = 4;

pub const MAX_ALTERNATIVE_STEPS: usize = 4;

pub const MAX_PATH_BYTES: usize = 512;

pub const MAX_PATHS: usize = 8;

pub const MAX_BUNDLE_BYTES: usize = 4104;

// `listing`: bytes of journal that it reads, rows that it lends.
pub const LISTED_BYTES: usize = 32768;

pub const LISTED_ROWS: usize = 4096;
