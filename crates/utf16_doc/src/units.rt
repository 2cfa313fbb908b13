//! Units of the characters of a text, and sums of them.

ghost use Rattle.std.specs.Prelude.{◌≡◌, ℕ, ◌+◌, ◌-◌, ◌*◌, ◌/◌, ◌^◌, ◌<◌, ◌≤◌, take, length, slice_index, IfOk};
ghost use Rattle.utf16_doc.specs.Units.{units_of, units_before, AreCheckpoints};

use crate::Encoding;
use base_core::TEXT_LIMIT;
use std::alloc::{AllocError, Global};

/// How many bytes of a text share a kept sum of units.
pub const BLOCK: usize = 256;

/// The units of a character, counted at its first byte.
pub fn units_of(encoding: Encoding, byte: u8) -> u32
    ensures value { result ≡ units_of encoding byte }
    ensures small { result ≤ 4 }
{
    match encoding {
        Encoding::Utf8 => match byte {
            0..128 => 1,
            128..192 => 0,
            192..224 => 2,
            224..240 => 3,
            _ => 4,
        },
        Encoding::Utf16 => match byte {
            0..128 => 1,
            128..192 => 0,
            192..240 => 1,
            _ => 2,
        },
    }
}

/// The units of a stretch of a text.
fn units_within(encoding: Encoding, text: &[u8], from: usize, to: usize) -> u32
    requires ordered { from ≤ to }
    requires within { to ≤ length text.now }
    requires short { to - from ≤ 256 }
    ensures sum { result + units_before encoding text.now from ≡ units_before encoding text.now to }
    ensures small { result ≤ 4 * (to - from) }
{
    let mut units = 0;
    for i in from..to {
        units += units_of(encoding, text[i]);
    }
    units
}

/// The units before each block of the text, and before what is left after the last whole one.
pub fn unit_checkpoints(
    alloc: Global,
    encoding: Encoding,
    text: &[u8],
) -> Result<Vec<u32>, AllocError>
    requires { length text.now ≤ TEXT_LIMIT }
    ensures { IfOk result (λ checkpoints. AreCheckpoints encoding text.now checkpoints.items) }
{
    let mut checkpoints = Vec::new(alloc);
    let mut units = 0;
    for k in 0..text.len() / BLOCK {
        checkpoints.push(units)?;
        units += units_within(encoding, text, k * BLOCK, k * BLOCK + BLOCK);
    }
    checkpoints.push(units)?;
    Ok(checkpoints)
}

/// The units before an offset, from the kept sums.
pub fn units_before(encoding: Encoding, text: &[u8], checkpoints: &[u32], offset: usize) -> u32
    requires within { offset ≤ length text.now }
    requires short { length text.now ≤ TEXT_LIMIT }
    requires summed { AreCheckpoints encoding text.now checkpoints.now }
    ensures { result ≡ units_before encoding text.now offset }
{
    let k = offset / BLOCK;
    checkpoints[k] + units_within(encoding, text, k * BLOCK, offset)
}
