//! The limits of the product, each named once. Contracts and definitions cite these names.

/// The greatest length of a text, in bytes.
pub const TEXT_LIMIT: usize = 1_048_576;

/// The greatest length of a message's body, in bytes.
pub const BODY_LIMIT: usize = 4_194_304;

/// The greatest length of the header lines before a body with their empty line, in bytes.
pub const HEADER_LIMIT: usize = 4096;

/// How many bytes a session asks for at a time.
pub const POLL_LIMIT: usize = 4096;

/// How many bytes a session takes in all.
pub const SESSION_LIMIT: u64 = 1_099_511_627_776;

/// How many documents may be open.
pub const DOCUMENT_LIMIT: usize = 64;

/// How many requests may wait for a document's end.
pub const WAITING_LIMIT: usize = 256;

/// How many finished sentences are kept.
pub const TABLE_LIMIT: usize = 40_000;

/// Units of fuel for the judgements of a sentence.
pub const UNIT_LIMIT: u32 = 1_000_000;

/// The greatest cost of a sentence: all units of its judgements, and one for the sentence.
pub const COST_LIMIT: u32 = 1_000_001;

/// How many judgements may stand in one another.
pub const NESTING_LIMIT: u32 = 2000;

/// How many rules of the grammar may stand in one another.
pub const SYNTAX_NESTING_LIMIT: u32 = 200;

/// The greatest numeral in a term.
pub const NUMERAL_LIMIT: u32 = 200;

/// The greatest level of `Type@{n}`; the least is 1.
pub const LEVEL_LIMIT: u16 = 1000;

/// The greatest number of nodes of a term.
pub const TERM_SIZE_LIMIT: u32 = 1_048_576;

/// How many nodes of a term may stand in one another.
pub const TERM_DEPTH_LIMIT: u32 = 1000;

/// The greatest number of nodes of a term that is printed.
pub const PRINTED_NODES_LIMIT: u32 = 20_000;

/// The greatest length of a printed term, in bytes.
pub const PRINTED_BYTES_LIMIT: usize = 1_048_576;
