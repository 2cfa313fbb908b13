//! Observers are shown a file, and their summaries written.
ghost use Rattle.std.specs.Prelude.{◌≡◌, [], ◌∷◌, map, ℕ, OnOk, OnErr};
ghost use Rattle.base_core.specs.Writes.{Writes};
ghost use Rattle.batch_check.specs.Reports.{joined};
ghost use Rattle.batch_check.specs.Observers.{AllShown, first_shown};

use crate::digests::FileDigest;
use crate::observers::Observer;
use base_core::{Halt, NoMem, Sink, write_all};
use std::alloc::Global;

/// Shows a file to each observer in turn.
pub(crate) fn show_all<O: Observer>(
    alloc: Global,
    watch: &mut Vec<O>,
    digest: &FileDigest,
) -> Result<(), NoMem>
    ensures shows { OnOk result (AllShown (digest.now ∷ [])
        (map O.shown watch.old.items) (map O.shown watch.new.items)) }
    ensures fails { OnErr result ((first : ℕ) × (map O.shown watch.new.items ≡
        first_shown first (digest.now ∷ []) (map O.shown watch.old.items))) }
    ensures named { map O.title watch.new.items ≡ map O.title watch.old.items }
{
    for i in 0..watch.len() {
        watch[i].finished(alloc, digest)?;
    }
    Ok(())
}

fn write_summary<S: Sink, O: Observer>(alloc: Global, observer: &O, out: &mut S) -> Result<(), Halt>
    ensures { Writes S.written S.faults out.old out.new result (O.told observer.now) }
{
    let bytes = observer.summary(alloc)?;
    write_all(out, bytes.as_slice())
}

/// Writes the summary of each observer in turn.
pub(crate) fn write_summaries<S: Sink, O: Observer>(
    alloc: Global,
    watch: &Vec<O>,
    out: &mut S,
) -> Result<(), Halt>
    ensures { Writes S.written S.faults out.old out.new result (joined (map O.told watch.now.items)) }
{
    for i in 0..watch.len() {
        match write_summary(alloc, &watch[i], out) {
            Ok(()) => {}
            Err(halt) => return Err(halt),
        }
    }
    Ok(())
}
