//! Bytes are written, whole or not.
ghost use Rattle.std.specs.Prelude.{◌≡◌, ◌≤◌, false};
ghost use Rattle.base_core.specs.Faults.{Rose};
ghost use Rattle.batch_check.specs.Batch.{WritesWhole};

use base_core::{Put, Sink};

/// Offers bytes to a sink until all are taken, and says whether they were. A put that fails is not tried again.
pub(crate) fn write_whole<S: Sink>(out: &mut S, bytes: &[u8]) -> bool
    ensures told { WritesWhole result (S.written out.old) (S.written out.new) bytes.now }
    ensures later { S.faults out.old ≤ S.faults out.new }
    ensures failed { result ≡ false → Rose (S.faults out.old) (S.faults out.new) }
{
    let mut at = 0;
    while at < bytes.len() {
        match out.put(&bytes[at..]) {
            Put::Took(taken) => at += taken,
            Put::Failed => return false,
        }
    }
    true
}
