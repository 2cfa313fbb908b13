//! The entries of an inductive type that passed its test.
ghost use Rattle.std.specs.Prelude.{◌≡◌, ◌+◌, ◌≤◌, ◌<◌, [], ◌∷◌, length, IfOk, OnOk};
ghost use Rattle.base_core.specs.Answers.{Gives};
ghost use Rattle.core_term.specs.Sorts.{IsSort};
ghost use Rattle.cic_rules.specs.Judges.{IsNeverRefused};
ghost use Rattle.cic_rules.specs.Declare.{eliminators as entries_of, IsChecked};
ghost use Rattle.cic_rules.specs.Environments.{IsEnvironment};
ghost use Rattle.cic_rules.specs.Eliminators.{hyp_names, type_of_ctor as ctor_type, eliminator_type as type_into, type_entry, ctor_entries, family_entries};
ghost use Rattle.inductive_check.specs.Steps.{sized};
ghost use Rattle.inductive_check.specs.Labels.{with_type};
ghost use Rattle.inductive_check.specs.Levels.{levels_of as top_levels, Makes};
ghost use Rattle.inductive_check.specs.Elimination.{IsMotive};
ghost use Rattle.inductive_check.specs.Entries.{Adds, AreSorts, MayEliminate, HasFew, top_site as the_top_site, member_entries, behind_params_at, ctor_entry, sort_entry, sort_entries};

use crate::elimination::{Motive, cases, motive_type};
use crate::families::type_of_decl;
use crate::labels::is_in_prop;
use crate::levels::Site;
use crate::names::eliminator_name;
use crate::parts::products_over;
use base_core::{Limit, List, NoMem, NumberList, Stop, TERM_DEPTH_LIMIT, Text};
use cic_rules::{
    CheckedInductive, Ctor, Entry, EntryKind, EntryList, GlobalEnv, Hyp, InductiveDecl,
};
use core_term::{Sort, Term, TermStop};
use fresh_names::Names;
use shared_map::SharedList;
use std::alloc::Global;

/// The entries of an inductive type that passed its test in this environment: the type, its
/// constructors, and its eliminators into the sorts that they may go into. Out of size exactly
/// where one of their types is too large.
pub fn eliminators(alloc: Global, env: &GlobalEnv, i: &CheckedInductive) -> Result<EntryList, Stop>
    requires { IsChecked env.now i.now }
    ensures answer { Gives result (entries_of env.now i.now) }
    ensures never_refused { IsNeverRefused result }
{
    let _environment = env.len();
    if i.decl.ctors.as_slice().len() > TERM_DEPTH_LIMIT as usize {
        return Err(Stop::Out(Limit::SizeLimit));
    }
    let mut list = EntryList::new(alloc);
    match add_family(alloc, env, i, &mut list) {
        Ok(()) => Ok(list),
        Err(stop) => Err(stop),
    }
}

/// The type, its constructors and its eliminators.
fn add_family(
    alloc: Global,
    env: &GlobalEnv,
    i: &CheckedInductive,
    list: &mut EntryList,
) -> Result<(), Stop>
    requires ready { MayEliminate env.now i.now }
    requires sorts { AreSorts i.now.sorts }
    requires few { length i.now.decl.ctors ≤ 1000 }
    ensures { Adds result list.new list.old (family_entries env.now i.now.decl i.now.used i.now.sorts) }
{
    match add_type(alloc, i, list) {
        Ok(()) => add_members(alloc, env, i, list),
        Err(stop) => Err(stop),
    }
}

fn add_type(alloc: Global, i: &CheckedInductive, list: &mut EntryList) -> Result<(), Stop>
    requires { length i.now.decl.ctors ≤ 1000 }
    ensures added { Adds result list.new list.old (type_entry i.now.decl i.now.used ∷ []) }
    ensures few { OnOk result (HasFew i.now.decl) }
{
    let name = i.decl.name.share()?;
    let used = List::copy(alloc, i.used.as_slice())?;
    let kind = EntryKind::Inductive(i.decl.ctors.as_slice().len() as u32);
    let ty = type_of_decl(alloc, &i.decl)?;
    add(list, name, ty, kind, used)
}

fn add(
    list: &mut EntryList,
    name: Text,
    ty: Term,
    kind: EntryKind,
    used: NumberList,
) -> Result<(), Stop>
    ensures { Adds result list.new list.old (record { name = name; ty = ty; kind = kind; used = used } ∷ []) }
{
    let _depth = ty.depth();
    list.push(Entry {
        name,
        ty,
        kind,
        used,
    })?;
    Ok(())
}

/// The constructors and the eliminators.
fn add_members(
    alloc: Global,
    env: &GlobalEnv,
    i: &CheckedInductive,
    list: &mut EntryList,
) -> Result<(), Stop>
    requires ready { MayEliminate env.now i.now }
    requires sorts { AreSorts i.now.sorts }
    requires few { HasFew i.now.decl }
    ensures { Adds result list.new list.old (member_entries env.now i.now) }
{
    match add_ctors(alloc, i, 0, i.decl.ctors.as_slice(), list) {
        Ok(()) => {
            let m = motive(&i.decl);
            add_eliminators(alloc, env, i, m, i.sorts.as_slice(), list)
        }
        Err(stop) => Err(stop),
    }
}

fn motive(d: &InductiveDecl) -> Motive
    requires { HasFew d.now }
    ensures { IsMotive result d.now }
{
    Motive {
        level: d.params.as_slice().len() as u32,
        is_prop: is_in_prop(d),
    }
}

/// The constructors from an index on.
fn add_ctors(
    alloc: Global,
    i: &CheckedInductive,
    index: u32,
    ctors: &[Ctor],
    list: &mut EntryList,
) -> Result<(), Stop>
    requires { index + length ctors.now ≤ 1000 }
    ensures { Adds result list.new list.old (ctor_entries i.now.place i.now.decl index ctors.now) }
{
    match ctors {
        [] => Ok(()),
        [ctor, later @ ..] => match add_ctor(alloc, i, index, ctor, list) {
            Ok(()) => add_ctors(alloc, i, index + 1, later, list),
            Err(stop) => Err(stop),
        },
    }
}

fn add_ctor(
    alloc: Global,
    i: &CheckedInductive,
    index: u32,
    ctor: &Ctor,
    list: &mut EntryList,
) -> Result<(), Stop>
    ensures { Adds result list.new list.old (ctor_entry i.now.place i.now.decl index ctor.now ∷ []) }
{
    let name = ctor.name.share()?;
    let used = own_place(alloc, i)?;
    let kind = EntryKind::Constructor { of: i.place, index };
    let ty = type_of_ctor(alloc, &i.decl, ctor)?;
    add(list, name, ty, kind, used)
}

fn own_place(alloc: Global, i: &CheckedInductive) -> Result<NumberList, NoMem>
    ensures { IfOk result (λ used. used ≡ i.now.place ∷ []) }
{
    let mut used = List::new(alloc);
    used.push(i.place)?;
    Ok(used)
}

fn type_of_ctor(alloc: Global, d: &InductiveDecl, ctor: &Ctor) -> Result<Term, Stop>
    ensures { Gives result (sized (ctor_type d.now ctor.now)) }
{
    let end = ctor.ty.share()?;
    let ty = products_over(alloc, d.params.as_slice(), end)?;
    Ok(ty)
}

/// The eliminators into these sorts.
fn add_eliminators(
    alloc: Global,
    env: &GlobalEnv,
    i: &CheckedInductive,
    m: Motive,
    sorts: &[Sort],
    list: &mut EntryList,
) -> Result<(), Stop>
    requires ready { MayEliminate env.now i.now }
    requires few { HasFew i.now.decl }
    requires motive { IsMotive m i.now.decl }
    requires sorts { AreSorts sorts.now }
    ensures { Adds result list.new list.old (sort_entries env.now i.now sorts.now) }
{
    match sorts {
        [] => Ok(()),
        [sort, later @ ..] => match add_eliminator(alloc, env, i, m, *sort, list) {
            Ok(()) => add_eliminators(alloc, env, i, m, later, list),
            Err(stop) => Err(stop),
        },
    }
}

fn add_eliminator(
    alloc: Global,
    env: &GlobalEnv,
    i: &CheckedInductive,
    m: Motive,
    sort: Sort,
    list: &mut EntryList,
) -> Result<(), Stop>
    requires ready { MayEliminate env.now i.now }
    requires few { HasFew i.now.decl }
    requires motive { IsMotive m i.now.decl }
    requires sort { IsSort sort }
    ensures { Adds result list.new list.old (sort_entry env.now i.now sort ∷ []) }
{
    let name = eliminator_name(alloc, &i.decl, sort)?;
    let used = own_place(alloc, i)?;
    let kind = EntryKind::Eliminator { of: i.place, sort };
    let ty = eliminator_within(alloc, env, i, m, sort)?;
    add(list, name, ty, kind, used)
}

fn eliminator_within(
    alloc: Global,
    env: &GlobalEnv,
    i: &CheckedInductive,
    m: Motive,
    sort: Sort,
) -> Result<Term, Stop>
    requires ready { MayEliminate env.now i.now }
    requires few { HasFew i.now.decl }
    requires motive { IsMotive m i.now.decl }
    requires sort { IsSort sort }
    ensures { Gives result (sized (type_into (with_type env.now i.now) i.now.place i.now.decl sort)) }
{
    let ty = eliminator_type(alloc, env, i, m, sort)?;
    Ok(ty)
}

/// The type of the eliminator into a sort.
fn eliminator_type(
    alloc: Global,
    env: &GlobalEnv,
    i: &CheckedInductive,
    m: Motive,
    sort: Sort,
) -> Result<Term, TermStop>
    requires ready { MayEliminate env.now i.now }
    requires few { HasFew i.now.decl }
    requires motive { IsMotive m i.now.decl }
    requires sort { IsSort sort }
    ensures { Makes result (type_into (with_type env.now i.now) i.now.place i.now.decl sort) }
{
    match behind_params(alloc, env, i, m, sort) {
        Ok(end) => products_over(alloc, i.decl.params.as_slice(), end),
        Err(stop) => Err(stop),
    }
}

/// The motive, the cases, the indices and the value.
#[tactic(auto, using(crate::proofs::SizeLaws::domain_stop, crate::proofs::SizeLaws::rest_stop))]
fn behind_params(
    alloc: Global,
    env: &GlobalEnv,
    i: &CheckedInductive,
    m: Motive,
    sort: Sort,
) -> Result<Term, TermStop>
    requires ready { MayEliminate env.now i.now }
    requires few { HasFew i.now.decl }
    requires motive { IsMotive m i.now.decl }
    requires sort { IsSort sort }
    ensures { Makes result (behind_params_at (with_type env.now i.now) i.now m sort) }
{
    let name = Text::copy(alloc, "P")?;
    let site = top_site(alloc, m.level)?;
    let names = param_names(alloc, i.decl.params.as_slice())?;
    let names = names.with(alloc, &name)?;
    let arity = &i.decl.arity;
    let _depth = arity.depth();
    match motive_type(alloc, env, i, m, m.level, sort, arity) {
        Ok(domain) => match cases(alloc, env, i, m, 0, i.decl.ctors.as_slice(), &site, &names) {
            Ok(rest) => Term::prod(alloc, name, domain, rest),
            Err(stop) => Err(stop),
        },
        Err(stop) => Err(stop),
    }
}

fn top_site(alloc: Global, count: u32) -> Result<Site, NoMem>
    requires { count ≤ 1000 }
    ensures { IfOk result (λ s. s ≡ the_top_site count) }
{
    let levels = levels_of(alloc, count)?;
    Ok(Site {
        levels,
        depth: count + 1,
    })
}

/// The levels of so many binders, the newest first.
#[tactic(auto, using(crate::proofs::TopLaws::levels_next))]
fn levels_of(alloc: Global, count: u32) -> Result<SharedList<u32>, NoMem>
    ensures { IfOk result (λ levels. levels ≡ top_levels count) }
{
    if count == 0 {
        return Ok(SharedList::empty());
    }
    let levels = levels_of(alloc, count - 1)?;
    levels.with_first(alloc, count - 1)
}

fn param_names(alloc: Global, params: &[Hyp]) -> Result<Names, NoMem>
    ensures { IfOk result (λ names. names ≡ hyp_names params.now) }
{
    match params {
        [] => Ok(Names::empty()),
        [first, later @ ..] => {
            let names = param_names(alloc, later)?;
            names.with(alloc, &first.name)
        }
    }
}
