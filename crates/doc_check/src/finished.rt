//! Finished sentences, by their numbers in a table of finished sentences.
ghost use Rattle.std.specs.Prelude.{◌≡◌, IfOk};

use base_core::NoMem;
use memo_table::Kept;
use prover_iface::{DiagList, Prover, RelDiag};
use std::alloc::Global;

/// A finished sentence.
#[derive(Drop)]
pub struct Finished<S: Drop> {
    /// Its number in the table.
    pub number: u64,
    /// The state behind it.
    pub state: S,
    /// What is told of it.
    pub diags: DiagList,
}

/// What is told of a sentence once more. Its texts are shared.
pub(crate) fn copy_of(alloc: Global, diags: &[RelDiag]) -> Result<DiagList, NoMem>
    ensures { IfOk result (λ list. list ≡ diags.now) }
{
    let mut list = DiagList::new(alloc);
    for diag in diags {
        list.push(RelDiag {
            severity: diag.severity,
            code: diag.code,
            from: diag.from,
            to: diag.to,
            text: diag.text.share()?,
        })?;
    }
    Ok(list)
}

/// A sentence that a table has kept, under its number.
pub(crate) fn from_kept<P: Prover>(
    alloc: Global,
    prover: &P,
    number: u64,
    kept: &Kept<P::State>,
) -> Result<Finished<P::State>, NoMem>
    ensures number { IfOk result (λ f. f.number ≡ number) }
    ensures state { IfOk result (λ f. P.meaning f.state ≡ P.meaning kept.now.state) }
    ensures diags { IfOk result (λ f. f.diags ≡ kept.now.diags) }
{
    let state = prover.share(&kept.state)?;
    let diags = copy_of(alloc, kept.diags.as_slice())?;
    Ok(Finished {
        number,
        state,
        diags,
    })
}
