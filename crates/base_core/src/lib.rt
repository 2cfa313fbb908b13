//! The ground that every crate stands on: owned texts and bytes, positions, sentence kinds,
//! refusals and limits, and the traits through which the program meets the outside.
#![tactic(auto)]

mod dir_files;
mod file_set;
mod kind;
mod limits;
mod link;
mod lists;
mod mem_files;
mod mem_sink;
mod memory;
mod places;
pub mod refusal_codes;
mod refusals;
mod script_link;
mod sinks;
mod status;
mod std_link;
mod std_sink;
mod steps;
mod text;
mod writing;

pub use dir_files::DirFiles;
pub use file_set::{FileFault, FileSet};
pub use kind::Kind;
pub use limits::{
    BODY_LIMIT, COST_LIMIT, DOCUMENT_LIMIT, HEADER_LIMIT, LEVEL_LIMIT, NESTING_LIMIT,
    NUMERAL_LIMIT, POLL_LIMIT, PRINTED_BYTES_LIMIT, PRINTED_NODES_LIMIT, SESSION_LIMIT,
    SYNTAX_NESTING_LIMIT, TABLE_LIMIT, TERM_DEPTH_LIMIT, TERM_SIZE_LIMIT, TEXT_LIMIT, UNIT_LIMIT,
    WAITING_LIMIT,
};
pub use link::{Link, Taken};
pub use lists::{Bytes, Duplicate, List, NumberList};
pub use mem_files::{FileItem, FileList, MemFiles};
pub use mem_sink::MemSink;
pub use memory::NoMem;
pub use places::{Change, ChangeList, Position, Range};
pub use refusal_codes::refusal_text;
pub use refusals::{Limit, Place, Refusal, Stop};
pub use script_link::{Item, ItemList, ScriptLink};
pub use sinks::{Put, Sink};
pub use status::Status;
pub use std_link::StdLink;
pub use std_sink::StdSink;
pub use steps::Steps;
pub use text::{Text, TextList};
pub use writing::{Halt, write_all};
