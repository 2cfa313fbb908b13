//! Declarations: what is asked for is judged, and entered.
ghost use Rattle.std.specs.Prelude.{◌≡◌, [], IfOk};
ghost use Rattle.base_core.specs.Answers.{Gives};
ghost use Rattle.cic_rules.specs.Environments.{entered, kind_terms, IsNew, IsOwn, MayEnter};
ghost use Rattle.cic_rules.specs.Fuel.{left, IsSpentOf};
ghost use Rattle.cic_rules.specs.Judges.{Meets, declare_with};
ghost use Rattle.cic_kernel.specs.Declarations.{assume_with, define_with, checked_define_with, inferred_define_with, induct_with, entry_of};

use crate::inference::{check, infer, refusal, sort_of};
use crate::kernel::Kernel;
use base_core::refusal_codes::NAME_TAKEN;
use base_core::{NoMem, NumberList, Stop, Text};
use cic_rules::{Context, Decl, Entry, EntryKind, Fuel, GlobalEnv, InductiveDecl, unite};
use core_term::Term;
use inductive_check::{check_inductive, eliminators};
use std::alloc::Global;

/// The environment with what is declared.
pub(crate) fn declare(
    alloc: Global,
    env: &GlobalEnv,
    decl: &Decl,
    fuel: &mut Fuel,
) -> Result<GlobalEnv, Stop>
    ensures answer { Meets result (left fuel.new) (declare_with env.now decl.now fuel.old) }
    ensures kept { IsSpentOf fuel.old fuel.new }
{
    match decl {
        Decl::Assume { name, ty } => assume(alloc, env, name, ty, EntryKind::Assumed, fuel),
        Decl::Admit { name, ty } => assume(alloc, env, name, ty, EntryKind::Admitted, fuel),
        Decl::Define {
            name,
            ty,
            body,
            opaque,
        } => define(alloc, env, name, ty, body, *opaque, fuel),
        Decl::Induct(family) => induct(alloc, env, family, fuel),
    }
}

/// An assumption or an admitted theorem, whose type has a sort.
fn assume(
    alloc: Global,
    env: &GlobalEnv,
    name: &Text,
    ty: &Term,
    kind: EntryKind,
    fuel: &mut Fuel,
) -> Result<GlobalEnv, Stop>
    requires own { IsOwn kind }
    requires terms { kind_terms kind ≡ [] }
    ensures answer { Meets result (left fuel.new) (assume_with env.now name.now ty.now kind fuel.old) }
    ensures kept { IsSpentOf fuel.old fuel.new }
{
    let _globals = env.len();
    if env.place_of(name).is_some() {
        return Err(refusal(NAME_TAKEN));
    }
    let ctx = Context::empty();
    let sort = sort_of(alloc, env, &ctx, ty, fuel)?;
    enter(alloc, env, name, ty, kind, sort.used)
}

/// A definition.
fn define(
    alloc: Global,
    env: &GlobalEnv,
    name: &Text,
    ty: &Option<Term>,
    body: &Term,
    opaque: bool,
    fuel: &mut Fuel,
) -> Result<GlobalEnv, Stop>
    ensures answer { Meets result (left fuel.new) (define_with env.now name.now ty.now body.now opaque fuel.old) }
    ensures kept { IsSpentOf fuel.old fuel.new }
{
    if env.place_of(name).is_some() {
        return Err(refusal(NAME_TAKEN));
    }
    match ty {
        Some(ty) => define_checked(alloc, env, name, ty, body, opaque, fuel),
        None => define_inferred(alloc, env, name, body, opaque, fuel),
    }
}

/// A definition with a type, which has a sort, and against which the body is checked.
fn define_checked(
    alloc: Global,
    env: &GlobalEnv,
    name: &Text,
    ty: &Term,
    body: &Term,
    opaque: bool,
    fuel: &mut Fuel,
) -> Result<GlobalEnv, Stop>
    requires new { IsNew env.now name.now }
    ensures answer { Meets result (left fuel.new) (checked_define_with env.now name.now ty.now body.now opaque fuel.old) }
    ensures kept { IsSpentOf fuel.old fuel.new }
{
    let _globals = env.len();
    let ctx = Context::empty();
    let sort = sort_of(alloc, env, &ctx, ty, fuel)?;
    let checked = check(alloc, env, &ctx, body, ty, fuel)?;
    let used = unite(alloc, sort.used, checked)?;
    let kind = defined(body, opaque)?;
    enter(alloc, env, name, ty, kind, used)
}

/// A definition without a type: the type that is found must have a sort.
fn define_inferred(
    alloc: Global,
    env: &GlobalEnv,
    name: &Text,
    body: &Term,
    opaque: bool,
    fuel: &mut Fuel,
) -> Result<GlobalEnv, Stop>
    requires new { IsNew env.now name.now }
    ensures answer { Meets result (left fuel.new) (inferred_define_with env.now name.now body.now opaque fuel.old) }
    ensures kept { IsSpentOf fuel.old fuel.new }
{
    let _globals = env.len();
    let ctx = Context::empty();
    let found = infer(alloc, env, &ctx, body, fuel)?;
    let sort = sort_of(alloc, env, &ctx, &found.ty, fuel)?;
    let used = unite(alloc, found.used, sort.used)?;
    let kind = defined(body, opaque)?;
    enter(alloc, env, name, &found.ty, kind, used)
}

/// A definition's kind, which shares its body.
fn defined(body: &Term, opaque: bool) -> Result<EntryKind, NoMem>
    ensures { IfOk result (λ kind. kind ≡ EntryKind.Defined body.now opaque) }
{
    let body = body.share()?;
    Ok(EntryKind::Defined { body, opaque })
}

/// The environment with one more entry.
fn enter(
    alloc: Global,
    env: &GlobalEnv,
    name: &Text,
    ty: &Term,
    kind: EntryKind,
    used: NumberList,
) -> Result<GlobalEnv, Stop>
    requires { MayEnter env.now (entry_of name.now ty.now kind used) }
    ensures { Gives result (entered env.now (entry_of name.now ty.now kind used)) }
{
    let name = name.share()?;
    let ty = ty.share()?;
    env.with_entry(
        alloc,
        Entry {
            name,
            ty,
            kind,
            used,
        },
    )
}

/// An inductive type with its constructors and its eliminators.
fn induct(
    alloc: Global,
    env: &GlobalEnv,
    family: &InductiveDecl,
    fuel: &mut Fuel,
) -> Result<GlobalEnv, Stop>
    ensures answer { Meets result (left fuel.new) (induct_with env.now family.now fuel.old) }
    ensures kept { IsSpentOf fuel.old fuel.new }
{
    let _globals = env.len();
    let checked = check_inductive(&Kernel {}, alloc, env, family, fuel)?;
    let entries = eliminators(alloc, env, &checked)?;
    env.with_inductive(alloc, checked.decl, entries)
}
