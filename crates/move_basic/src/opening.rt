//! The binder of a type.
ghost use Rattle.std.specs.Prelude.{◌≡◌, length, IfOk};
ghost use Rattle.cic_rules.specs.Contexts.{plain_hyp, defined_hyp};
ghost use Rattle.move_basic.specs.Intro.{opening_of};

use base_core::{NoMem, Text};
use cic_rules::Hyp;
use core_term::{Node, Term};

/// A type's binder as a hypothesis, and what stands under it.
#[derive(Drop)]
pub struct Opening {
    pub hyp: Hyp,
    pub under: Term,
}

/// The binder of a type, where it is a product or a let.
pub(crate) fn opening_of(ty: &Term) -> Result<Option<Opening>, NoMem>
    ensures { IfOk result (λ o. o ≡ opening_of ty.now) }
{
    match ty.node() {
        Node::Prod {
            name,
            domain,
            codomain,
        } => {
            let hyp = plain_hyp(name, domain)?;
            let under = codomain.share()?;
            Ok(Some(Opening { hyp, under }))
        }
        Node::LetIn {
            name,
            ty,
            value,
            body,
        } => {
            let hyp = defined_hyp(name, ty, value)?;
            let under = body.share()?;
            Ok(Some(Opening { hyp, under }))
        }
        Node::Var(_) => Ok(None),
        Node::Sorted(_) => Ok(None),
        Node::Constant(_) => Ok(None),
        Node::Lam { .. } => Ok(None),
        Node::App { .. } => Ok(None),
    }
}

/// A hypothesis without a definition.
pub(crate) fn plain_hyp(name: &Text, ty: &Term) -> Result<Hyp, NoMem>
    ensures { IfOk result (λ h. h ≡ plain_hyp name.now ty.now) }
{
    let name = name.share()?;
    let ty = ty.share()?;
    Ok(Hyp {
        name,
        ty,
        value: None,
    })
}

/// A hypothesis with one.
pub(crate) fn defined_hyp(name: &Text, ty: &Term, value: &Term) -> Result<Hyp, NoMem>
    ensures { IfOk result (λ h. h ≡ defined_hyp name.now ty.now value.now) }
{
    let name = name.share()?;
    let ty = ty.share()?;
    let value = value.share()?;
    Ok(Hyp {
        name,
        ty,
        value: Some(value),
    })
}
