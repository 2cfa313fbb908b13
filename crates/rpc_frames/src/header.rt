//! Reading a header part line by line, with a note of how far the reading has come.
ghost use Rattle.std.specs.Prelude.{◌≡◌, ◌+◌, ◌^◌, ◌<◌, ◌≤◌, ℕ, List, length, drop};
ghost use Rattle.std.specs.List.{prefix_len};
ghost use Rattle.rpc_frames.specs.Lines.{Lines, Line, is_text};
ghost use Rattle.rpc_frames.specs.Frames.{header_of};
ghost use Rattle.rpc_frames.specs.Stages.{ending_of, IsScan, IsSettled, ReadsLine, EndsLine};

use crate::FrameFault;
use crate::fields::read_field;

/// The longest header part, its empty line included.
pub const HEADER_LIMIT: usize = 4096;

/// Where the line under way begins in the frame's bytes, up to where its text was looked at, and
/// the length that the lines before it told.
#[derive(Clone, Copy)]
pub(crate) struct Scan {
    pub(crate) line: usize,
    pub(crate) seen: usize,
    pub(crate) told: Option<u32>,
}

#[derive(Clone, Copy)]
pub(crate) enum Stage {
    /// The header part isn't whole yet.
    Header(Scan),
    /// It was read: where the body begins, and its length.
    Body(usize, u32),
    Broken(FrameFault),
}

enum Step {
    Next(Scan),
    Stay(Stage),
}

enum Ending {
    Missing,
    Stray,
    End,
}

fn text_len(bytes: &[u8]) -> usize
    ensures count { result ≡ prefix_len is_text bytes.now }
    ensures within { result ≤ length bytes.now }
{
    bytes
        .iter()
        .take_while(|b| !(**b == b'\r' || **b == b'\n'))
        .count()
}

fn line_end(bytes: &[u8]) -> Ending
    ensures { result ≡ ending_of bytes.now }
{
    match bytes {
        [] | [b'\r'] => Ending::Missing,
        [b'\r', b'\n', ..] => Ending::End,
        _ => Ending::Stray,
    }
}

fn read_text(bytes: &[u8], scan: Scan) -> Scan
    requires { IsScan scan bytes.now }
    ensures scan { IsScan result bytes.now }
    ensures line { result.line ≡ scan.line }
    ensures stops { prefix_len is_text (drop result.seen bytes.now) ≡ 0 }
{
    let seen = scan.seen + text_len(&bytes[scan.seen..]);
    Scan { seen, ..scan }
}

fn end_line(taken: usize, told: Option<u32>, text: &[u8]) -> Step
    requires { taken + length text.now + 2 < 2 ^ 64 }
    ensures { (rest : List ℕ) (more : Lines) →
        EndsLine result (taken + length text.now + 2) rest more (header_of taken told (Line text.now rest more)) }
{
    let next = taken + text.len() + 2;
    match (text, told) {
        ([], _) if next > HEADER_LIMIT => Step::Stay(Stage::Broken(FrameFault::BadHeader)),
        ([], None) => Step::Stay(Stage::Broken(FrameFault::NoLength)),
        ([], Some(length)) => Step::Stay(Stage::Body(next, length)),
        _ if next >= HEADER_LIMIT => Step::Stay(Stage::Broken(FrameFault::BadHeader)),
        _ => match read_field(told, text) {
            Ok(told) => Step::Next(Scan {
                line: next,
                seen: next,
                told,
            }),
            Err(fault) => Step::Stay(Stage::Broken(fault)),
        },
    }
}

fn read_line(bytes: &[u8], scan: Scan) -> Step
    requires { IsScan scan bytes.now }
    ensures { ReadsLine result scan bytes.now }
{
    let scan = read_text(bytes, scan);
    match line_end(&bytes[scan.seen..]) {
        Ending::Missing if bytes.len() < HEADER_LIMIT => Step::Stay(Stage::Header(scan)),
        Ending::Missing => Step::Stay(Stage::Broken(FrameFault::BadHeader)),
        Ending::Stray => Step::Stay(Stage::Broken(FrameFault::BadHeader)),
        Ending::End => end_line(scan.line, scan.told, &bytes[scan.line..scan.seen]),
    }
}

/// Reads on as far as the bytes go.
pub(crate) fn read_header(bytes: &[u8], scan: Scan) -> Stage
    requires { IsScan scan bytes.now }
    ensures { IsSettled result bytes.now }
{
    let mut scan = scan;
    loop {
        match read_line(bytes, scan) {
            Step::Next(next) => scan = next,
            Step::Stay(stage) => return stage,
        }
    }
}
