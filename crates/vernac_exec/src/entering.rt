//! What the commands share: refusals, terms over their groups, and what goes to the kernel.
ghost use Rattle.std.specs.Prelude.{◌≡◌, IfOk};
ghost use Rattle.base_core.specs.Answers.{Gives};
ghost use Rattle.cic_rules.specs.Fuel.{IsSpentOf};
ghost use Rattle.cic_rules.specs.Steps.{answer_of};
ghost use Rattle.elaborator.specs.Parts.{closed};
ghost use Rattle.vernac_exec.specs.Standing.{IsDeedIn};
ghost use Rattle.vernac_exec.specs.Calls.{Does, refusal_of, declare_as_with};

use crate::deed::Deed;
use base_core::{Place, Refusal, Stop};
use cic_rules::{Context, Decl, Declares, Fuel, GlobalEnv};
use core_term::Term;
use elaborator::{Binding, close};
use prover_iface::ItemKind;
use std::alloc::Global;

/// A refusal at the whole sentence.
pub(crate) fn refusal(code: u16) -> Stop
    ensures { result ≡ refusal_of code }
{
    Stop::Refused(Refusal {
        code,
        place: Place::Whole,
    })
}

/// What was elaborated is declared.
pub(crate) fn declare_as<D: Declares>(
    judge: &D,
    alloc: Global,
    env: &GlobalEnv,
    kind: ItemKind,
    decl: &Decl,
    fuel: &mut Fuel,
) -> Result<Deed, Stop>
    ensures answer { Does result fuel.old fuel.new (declare_as_with env.now kind decl.now) }
    ensures deed { IfOk result (IsDeedIn env.now) }
    ensures kept { IsSpentOf fuel.old fuel.new }
{
    let env = judge.declare(alloc, env, decl, fuel)?;
    Ok(Deed::Declares { kind, env })
}

/// A term under all hypotheses of a context, with its products or functions over them; out of size
/// where it grows too large.
pub(crate) fn close_over(
    alloc: Global,
    kind: Binding,
    inner: &Context,
    t: Term,
) -> Result<Term, Stop>
    ensures { Gives result (answer_of (closed kind inner.now t)) }
{
    close(alloc, kind, inner, inner.len(), t)
}
