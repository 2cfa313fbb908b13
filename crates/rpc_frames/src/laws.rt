//! Laws of the meaning of a stream, each the contract of a function that does nothing.
ghost use Rattle.std.specs.Prelude.{◌≡◌, ◌≤◌, ℕ, List, [], ◌++◌, length};
ghost use Rattle.std.specs.List.{concat, flat_map, All};
ghost use Rattle.rpc_frames.specs.declared.faults.FrameFault.{FrameFault};
ghost use Rattle.rpc_frames.specs.Frames.{Frame, Broken, front, frames, framed, with_bodies, after_pieces};
ghost use Rattle.rpc_frames.specs.Grammar.{BeginsWithFrame, BeginsWithFault};

/// However a stream is cut into pieces, its bodies and its end are those of all its bytes.
pub fn any_cut()
    ensures { (pieces : List (List ℕ)) → after_pieces (frames []) pieces ≡ frames (concat pieces) }
{}

/// Where the bodies given and then the frames of the bytes held are the frames of all bytes fed, they
/// are so after the next piece too.
pub fn piece_after_piece()
    ensures { (given : List (List ℕ)) (held fed piece : List ℕ) →
        with_bodies given (frames held) ≡ frames fed →
        with_bodies given (frames (held ++ piece)) ≡ frames (fed ++ piece) }
{}

/// Reading what `write_frame` gives for a body of at most 4,194,304 bytes gives the body back, and
/// then what follows the frame.
pub fn reads_what_is_written()
    ensures { (body rest : List ℕ) → length body ≤ 4194304 → front (framed body ++ rest) ≡ Frame body rest }
{}

/// So the frames of bodies that are written one after another are those bodies.
pub fn reads_all_that_is_written()
    ensures { (bodies : List (List ℕ)) (rest : List ℕ) →
        All (λ body. length body ≤ 4194304) bodies →
        frames (flat_map framed bodies ++ rest) ≡ with_bodies bodies (frames rest) }
{}

/// The bytes begin with a frame exactly where the grammar of frames says so.
pub fn a_frame_is_what_is_spelled_so()
    ensures read { (bytes body rest : List ℕ) → front bytes ≡ Frame body rest → BeginsWithFrame bytes body rest }
    ensures spelled { (bytes body rest : List ℕ) → BeginsWithFrame bytes body rest → front bytes ≡ Frame body rest }
{}

/// The bytes begin with a fault exactly where header lines and then the bytes up to one that shows it
/// do.
pub fn a_fault_is_what_shows_it()
    ensures read { (bytes : List ℕ) (fault : FrameFault) → front bytes ≡ Broken fault → BeginsWithFault bytes fault }
    ensures shown { (bytes : List ℕ) (fault : FrameFault) → BeginsWithFault bytes fault → front bytes ≡ Broken fault }
{}
