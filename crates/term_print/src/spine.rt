//! Terms as heads with arguments.
ghost use Rattle.std.specs.Prelude.{◌≡◌, ◌+◌, IfOk};
ghost use Rattle.core_term.specs.Tree.{size_of};
ghost use Rattle.term_spine.specs.Spine.{IsHead, arguments_size};
ghost use Rattle.term_spine.specs.Spines.{IsSpineOf};

use base_core::NoMem;
use core_term::{Term, TermStop};
use std::alloc::Global;
use term_spine::{Arguments, Spine, spine_of};

/// The head and the arguments of a term.
#[tactic(auto, using(crate::proofs::SpineLaws::size_of_spine))]
pub fn spine(alloc: Global, t: &Term) -> Result<Spine, NoMem>
    ensures spine { IfOk result (λ s. IsSpineOf s t.now) }
    ensures head { IfOk result (λ s. IsHead s.head) }
    ensures size { IfOk result (λ s. size_of s.head + arguments_size s.args ≡ size_of t.now) }
{
    let _size = t.size();
    let whole = t.share()?;
    match spine_of(alloc, whole, Arguments::empty()) {
        Ok(spine) => Ok(spine),
        Err(TermStop::NoMem) => Err(NoMem),
        Err(TermStop::TooLarge) => unreachable!(),
    }
}
