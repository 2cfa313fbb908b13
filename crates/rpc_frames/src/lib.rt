//! The messages of a stream of bytes, in whatever pieces it comes: header lines, an empty line, and
//! a body of the told length (the base protocol of LSP).
#![tactic(auto)]

mod faults;
mod fields;
mod header;
mod laws;
mod stream;
mod writing;

pub use faults::{FrameFault, FrameStop};
pub use fields::BODY_LIMIT;
pub use header::HEADER_LIMIT;
pub use laws::{
    a_fault_is_what_shows_it, a_frame_is_what_is_spelled_so, any_cut, piece_after_piece,
    reads_all_that_is_written, reads_what_is_written,
};
pub use stream::Frames;
pub use writing::write_frame;
