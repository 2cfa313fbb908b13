//! The head of a term, turn by turn: beta, zeta, iota and the definitions that go on by an argument.
ghost use Rattle.std.specs.Prelude.{◌≡◌, ◌≤◌, Some, length, IfOk};
ghost use Rattle.core_term.specs.Tree.{Constant};
ghost use Rattle.term_spine.specs.Spines.{tree_of_spine};
ghost use Rattle.cic_rules.specs.Environments.{IsEnvironment};
ghost use Rattle.cic_rules.specs.Families.{eliminator_of};
ghost use Rattle.cic_rules.specs.Fuel.{left, IsSpentOf};
ghost use Rattle.cic_rules.specs.Judges.{Meets, IsNeverRefused};
ghost use Rattle.cic_rules.specs.Shapes.{shape_at};
ghost use Rattle.conversion.specs.Lookups.{family_if_any};
ghost use Rattle.conversion.specs.Turns.{Takes, Reduces, ReducesTo};
ghost use Rattle.move_compute.specs.Calls.{simpl_head_with};
ghost use Rattle.move_compute.specs.Refold.{refold_of as is_refold_of};
ghost use Rattle.move_compute.specs.Scopes.{IsSpineOver, IsTermOver};
ghost use Rattle.move_compute.specs.Turns.{head_loop_of, head_turn, global_turn, plain_turn, by_major, by_awaited, by_refold};

use crate::contractions::eliminate;
use crate::lookups::spine_of_term;
use crate::refolding::go_on;
use crate::refolds::{Refold, refold_of};
use base_core::{Limit, NoMem, Stop};
use cic_rules::{FamilyShape, Fuel, GlobalEnv};
use conversion::contractions::{beta, put_in};
use conversion::lookups::{argument_at, eliminated_place};
use core_term::{Node, Term};
use std::alloc::Global;
use term_spine::Spine;

/// The head of a term, reduced until no rule applies. No variable and no other definition is unfolded.
/// So many variables are about, and the term stays in scope. One to which no rule applies is given back
/// as it is, in shared parts.
#[cycle(heads)]
pub(crate) fn simpl_head(
    alloc: Global,
    env: &GlobalEnv,
    t: &Term,
    vars: u32,
    fuel: &mut Fuel,
) -> Result<Term, Stop>
    requires { IsTermOver env.now vars t.now }
    ensures answer { Meets result (left fuel.new) (simpl_head_with env.now t.now fuel.old) }
    ensures never_refused { IsNeverRefused result }
    ensures scoped { IfOk result (IsTermOver env.now vars) }
    ensures kept { IsSpentOf fuel.old fuel.new }
{
    let _globals = env.len();
    if !fuel.enter() {
        return Err(Stop::Out(Limit::DepthLimit));
    }
    let reduced = reduce(alloc, env, t, vars, fuel);
    fuel.leave();
    reduced
}

#[cycle(heads)]
fn reduce(
    alloc: Global,
    env: &GlobalEnv,
    t: &Term,
    vars: u32,
    fuel: &mut Fuel,
) -> Result<Term, Stop>
    requires environment { IsEnvironment env.now }
    requires term { IsTermOver env.now vars t.now }
    ensures answer { Reduces result fuel.old fuel.new (head_loop_of env.now fuel.old t.now) }
    ensures never_refused { IsNeverRefused result }
    ensures kept { IsSpentOf fuel.old fuel.new }
{
    let first = spine_of_term(alloc, t)?;
    match turn(alloc, env, &first, vars, fuel) {
        Ok(None) => {
            let same = t.share()?;
            Ok(same)
        }
        Ok(Some(next)) => match reduce_spine(alloc, env, next, vars, fuel) {
            Ok(spine) => {
                let whole = term_of_spine(alloc, &spine)?;
                Ok(whole)
            }
            Err(stop) => Err(stop),
        },
        Err(stop) => Err(stop),
    }
}

/// Turns from a spine on, until no rule applies.
#[cycle(heads)]
fn reduce_spine(
    alloc: Global,
    env: &GlobalEnv,
    spine: Spine,
    vars: u32,
    fuel: &mut Fuel,
) -> Result<Spine, Stop>
    requires environment { IsEnvironment env.now }
    requires spine { IsSpineOver env.now vars spine }
    ensures answer { ReducesTo result fuel.old fuel.new (head_loop_of env.now fuel.old (tree_of_spine spine)) }
    ensures kept { IsSpentOf fuel.old fuel.new }
{
    let mut spine = spine;
    while let Some(next) = turn(alloc, env, &spine, vars, fuel)? {
        spine = next;
    }
    Ok(spine)
}

/// The term of a spine, which is not too large.
fn term_of_spine(alloc: Global, spine: &Spine) -> Result<Term, NoMem>
    ensures { IfOk result (λ t. t ≡ tree_of_spine spine.now) }
{
    match spine.whole(alloc) {
        Ok(whole) => Ok(whole),
        Err(_) => Err(NoMem),
    }
}

/// One turn: what the spine becomes, or none where no rule applies.
#[cycle(heads)]
fn turn(
    alloc: Global,
    env: &GlobalEnv,
    spine: &Spine,
    vars: u32,
    fuel: &mut Fuel,
) -> Result<Option<Spine>, Stop>
    requires { IsSpineOver env.now vars spine.now }
    ensures answer { Takes result fuel.old fuel.new spine.now (head_turn env.now fuel.old) }
    ensures kept { IsSpentOf fuel.old fuel.new }
{
    match spine.head.node() {
        Node::Lam { body, .. } => match spine.args.split()? {
            None => Ok(None),
            Some((value, rest)) => {
                let next = beta(alloc, body, &value, rest, fuel)?;
                Ok(Some(next))
            }
        },
        Node::LetIn { value, body, .. } => {
            let args = spine.args.share()?;
            let next = put_in(alloc, 1, body, value, args, fuel)?;
            Ok(Some(next))
        }
        Node::Constant(place) => turn_global(alloc, env, *place, spine, vars, fuel),
        Node::Var(_) => Ok(None),
        Node::Sorted(_) => Ok(None),
        Node::Prod { .. } => Ok(None),
        Node::App { .. } => Ok(None),
    }
}

/// The turn of a global with its arguments.
#[cycle(heads)]
fn turn_global(
    alloc: Global,
    env: &GlobalEnv,
    place: u32,
    spine: &Spine,
    vars: u32,
    fuel: &mut Fuel,
) -> Result<Option<Spine>, Stop>
    requires spine { IsSpineOver env.now vars spine.now }
    requires head { spine.now.head ≡ Constant place }
    ensures answer { Takes result fuel.old fuel.new spine.now (global_turn env.now fuel.old place) }
    ensures kept { IsSpentOf fuel.old fuel.new }
{
    match refold_of(alloc, env, place)? {
        Some(refold) => turn_definition(alloc, env, &refold, spine, vars, fuel),
        None => turn_constant(alloc, env, place, spine, vars, fuel),
    }
}

/// The turn of a definition that goes on by one of its arguments.
#[cycle(heads)]
fn turn_definition(
    alloc: Global,
    env: &GlobalEnv,
    refold: &Refold,
    spine: &Spine,
    vars: u32,
    fuel: &mut Fuel,
) -> Result<Option<Spine>, Stop>
    requires spine { IsSpineOver env.now vars spine.now }
    requires refold { is_refold_of env.now spine.now.head ≡ Some refold.now }
    ensures answer { Takes result fuel.old fuel.new spine.now (by_refold env.now fuel.old refold.now) }
    ensures kept { IsSpentOf fuel.old fuel.new }
{
    if refold.count > spine.args.len() as usize {
        return Ok(None);
    }
    match argument_at(&spine.args, refold.at) {
        None => Ok(None),
        Some(argument) => turn_awaited(alloc, env, refold, spine, argument, vars, fuel),
    }
}

/// The turn of such a definition with all its arguments, by the one by which it goes on.
#[cycle(heads)]
fn turn_awaited(
    alloc: Global,
    env: &GlobalEnv,
    refold: &Refold,
    spine: &Spine,
    argument: &Term,
    vars: u32,
    fuel: &mut Fuel,
) -> Result<Option<Spine>, Stop>
    requires spine { IsSpineOver env.now vars spine.now }
    requires argument { IsTermOver env.now vars argument.now }
    requires refold { is_refold_of env.now spine.now.head ≡ Some refold.now }
    requires enough { refold.now.count ≤ length spine.now.args }
    ensures answer { Takes result fuel.old fuel.new spine.now (by_awaited env.now fuel.old refold.now argument.now) }
    ensures kept { IsSpentOf fuel.old fuel.new }
{
    match simpl_head(alloc, env, argument, vars, fuel) {
        Ok(value) => go_on(alloc, env, refold, spine, &value, vars, fuel),
        Err(stop) => Err(stop),
    }
}

/// The turn of another global.
#[cycle(heads)]
fn turn_constant(
    alloc: Global,
    env: &GlobalEnv,
    place: u32,
    spine: &Spine,
    vars: u32,
    fuel: &mut Fuel,
) -> Result<Option<Spine>, Stop>
    requires spine { IsSpineOver env.now vars spine.now }
    requires head { spine.now.head ≡ Constant place }
    ensures answer { Takes result fuel.old fuel.new spine.now (plain_turn env.now fuel.old place) }
    ensures kept { IsSpentOf fuel.old fuel.new }
{
    let Some(family) = eliminated_place(env, place) else {
        return Ok(None);
    };
    let Some(shape) = env.shape(family) else {
        return Ok(None);
    };
    match argument_at(&spine.args, shape.major) {
        None => Ok(None),
        Some(major) => turn_eliminator(alloc, env, family, shape, spine, major, vars, fuel),
    }
}

/// The turn of an eliminator by its major premise.
#[cycle(heads)]
fn turn_eliminator(
    alloc: Global,
    env: &GlobalEnv,
    family: u32,
    shape: &FamilyShape,
    spine: &Spine,
    major: &Term,
    vars: u32,
    fuel: &mut Fuel,
) -> Result<Option<Spine>, Stop>
    requires spine { IsSpineOver env.now vars spine.now }
    requires major { IsTermOver env.now vars major.now }
    requires family { eliminator_of env.now spine.now.head ≡ family_if_any env.now (Some family) }
    requires shape { shape_at env.now family ≡ Some shape.now }
    ensures answer { Takes result fuel.old fuel.new spine.now (by_major env.now fuel.old major.now) }
    ensures kept { IsSpentOf fuel.old fuel.new }
{
    match simpl_head(alloc, env, major, vars, fuel) {
        Ok(value) => eliminate(alloc, env, family, shape, spine, &value, vars, fuel),
        Err(stop) => Err(stop),
    }
}
