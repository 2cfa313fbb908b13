//! Where lines end and start.

ghost use Rattle.std.specs.Prelude.{◌≡◌, ◌+◌, ◌^◌, ◌<◌, ◌≤◌, nat_le, ◌∷◌, count_by, length, slice_index, slice_range, IfOk};
ghost use Rattle.std.specs.List.Sorted.{IsNonDecreasing};
ghost use Rattle.utf16_doc.specs.Lines.{ends_line, line_ends, is_line_break};

use base_core::TEXT_LIMIT;
use std::alloc::{AllocError, Global};

/// Whether a byte belongs to an end mark.
pub fn is_line_break(byte: u8) -> bool
    ensures { result ≡ is_line_break byte }
{
    byte == b'\n' || byte == b'\r'
}

/// Whether a line ends with this byte, by what follows it.
fn ends_line(byte: u8, rest: &[u8]) -> bool
    ensures { result ≡ ends_line byte rest.now }
{
    match byte {
        b'\n' => true,
        b'\r' => !matches!(rest, [b'\n', ..]),
        _ => false,
    }
}

/// The offsets at which the end marks of lines end.
pub fn line_ends(alloc: Global, text: &[u8]) -> Result<Vec<u32>, AllocError>
    requires { length text.now ≤ TEXT_LIMIT }
    ensures { IfOk result (λ ends. ends.items ≡ line_ends 0 text.now) }
{
    let mut ends = Vec::new(alloc);
    for (i, byte) in text.iter().enumerate() {
        if ends_line(*byte, &text[i + 1..]) {
            ends.push(i as u32 + 1)?;
        }
    }
    Ok(ends)
}

/// How many of the ends, which ascend, are at most an offset.
pub fn ends_up_to(ends: &[u32], offset: usize) -> usize
    requires { IsNonDecreasing ends.now }
    ensures count { result ≡ count_by (λ end. nat_le end offset) ends.now }
    ensures bound { result ≤ length ends.now }
{
    ends.partition_point(|end| *end as usize <= offset)
}

/// Where a line starts, by the ends of all lines.
pub fn start_of(ends: &[u32], line: usize) -> usize
    requires { line ≤ length ends.now }
    ensures { result ≡ slice_index (0 ∷ ends.now) line }
{
    if line == 0 {
        0
    } else {
        ends[line - 1] as usize
    }
}
