//! What the variables of a context mean where the whole context stands.
ghost use Rattle.std.specs.Prelude.{◌≡◌, ◌+◌, ◌^◌, ◌≤◌, suc, length, IfOk};
ghost use Rattle.core_term.specs.Tree.{free_bound};
ghost use Rattle.core_term.specs.Places.{lift_of};
ghost use Rattle.base_core.specs.Answers.{Gives};
ghost use Rattle.cic_rules.specs.Contexts.{extended, plain_hyp, type_of_variable, value_of_variable, IsIn};

use crate::context::{Context, Hyp};
use base_core::{NoMem, Stop, Text};
use core_term::{Term, TermStop};
use std::alloc::Global;

impl Context {
    /// The type of the variable `i`, as it stands in the whole context.
    #[tactic(auto, using(crate::proofs::ContextLaws::type_bound))]
    pub fn type_of(&self, alloc: Global, i: u32) -> Result<Option<Term>, NoMem>
        ensures { IfOk result (λ ty. ty ≡ type_of_variable self.now i) }
    {
        match self.get(i) {
            Some(hyp) => {
                let ty = lifted(alloc, &hyp.ty, i)?;
                Ok(Some(ty))
            }
            None => Ok(None),
        }
    }

    /// The definition of the variable `i`, where the context has one, as it stands in the whole
    /// context.
    #[tactic(auto, using(crate::proofs::ContextLaws::value_bound))]
    pub fn value_of(&self, alloc: Global, i: u32) -> Result<Option<Term>, NoMem>
        ensures { IfOk result (λ value. value ≡ value_of_variable self.now i) }
    {
        match self.get(i) {
            Some(hyp) => match &hyp.value {
                Some(value) => {
                    let value = lifted(alloc, value, i)?;
                    Ok(Some(value))
                }
                None => Ok(None),
            },
            None => Ok(None),
        }
    }

    /// The context with a newer hypothesis without a definition, which shares its name and its type.
    pub fn with_plain(&self, alloc: Global, name: &Text, ty: &Term) -> Result<Context, Stop>
        requires { IsIn (length self.now) ty.now }
        ensures { Gives result (extended self.now (plain_hyp name.now ty.now)) }
    {
        let name = name.share()?;
        let ty = ty.share()?;
        let hyp = Hyp {
            name,
            ty,
            value: None,
        };
        self.with(alloc, hyp)
    }
}

impl Hyp {
    /// The same hypothesis under another name.
    pub fn renamed(&self, name: Text) -> Result<Hyp, NoMem>
        ensures { IfOk result (λ h. h ≡ record self.now { name = name }) }
    {
        let ty = self.ty.share()?;
        let value = match &self.value {
            Some(value) => Some(value.share()?),
            None => None,
        };
        Ok(Hyp { name, ty, value })
    }
}

/// A term of the context before the variable `i`, as it stands in the whole context.
#[tactic(auto, using(crate::proofs::ContextLaws::lift_fits, crate::proofs::ContextLaws::lift_numbered))]
fn lifted(alloc: Global, t: &Term, i: u32) -> Result<Term, NoMem>
    requires { free_bound t.now + suc i ≤ 2 ^ 31 }
    ensures { IfOk result (λ u. u ≡ lift_of t.now (suc i) 0) }
{
    let _depth = t.depth();
    match t.lift(alloc, i + 1, 0) {
        Ok(t) => Ok(t),
        Err(TermStop::NoMem) => Err(NoMem),
        Err(TermStop::TooLarge) => unreachable!(),
    }
}
