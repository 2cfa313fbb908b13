//! Goals, as they stand in the answer to `proof/goals`.
ghost use Rattle.std.specs.Prelude.{◌≡◌, ◌≤◌, ◌∷◌, [], None, Some, map, IfOk};
ghost use Rattle.std.specs.Option.{option_copied};
ghost use Rattle.serde_json.specs.Data.{string, array};
ghost use Rattle.serde_json.specs.View.{view, items_of};
ghost use Rattle.doc_check.specs.Check.{goals_behind};
ghost use Rattle.doc_check.specs.Document.{done};
ghost use Rattle.goals_query.specs.Goals.{hyp_from, hyp_data, goal_data, goal_list, level_data, view_data, goals_data, answer_data, empty_array};

use crate::places::{document_value, position_value};
use base_core::{NoMem, Position};
use doc_check::DocCheck;
use prover_iface::{GoalView, GoalsView, HypView, Prover, ViewList};
use serde_json::{Map, Value, json, put};
use std::alloc::Global;

fn text_value(alloc: Global, text: &str) -> Result<Value, NoMem>
    ensures { IfOk result (λ v. view v ≡ string text.now) }
{
    Ok(Value::try_from_str(alloc, text)?)
}

fn names_value(alloc: Global, name: &str) -> Result<Value, NoMem>
    ensures { IfOk result (λ v. view v ≡ array (items_of (string name.now ∷ []))) }
{
    let mut names = Vec::new(alloc);
    names.push(text_value(alloc, name)?)?;
    Ok(Value::Array(names))
}

/// A hypothesis without a definition.
fn plain_hyp(alloc: Global, name: &str, ty: &str) -> Result<Value, NoMem>
    ensures { IfOk result (λ v. view v ≡ hyp_from None name.now ty.now) }
{
    let names = names_value(alloc, name)?;
    Ok(json!(in alloc; {"names": names, "ty": ty})?)
}

/// A hypothesis with its definition.
fn defined_hyp(alloc: Global, value: &str, name: &str, ty: &str) -> Result<Value, NoMem>
    ensures { IfOk result (λ v. view v ≡ hyp_from (Some value.now) name.now ty.now) }
{
    let names = names_value(alloc, name)?;
    Ok(json!(in alloc; {"def": value, "names": names, "ty": ty})?)
}

/// A hypothesis.
fn hyp_value(alloc: Global, hyp: &HypView) -> Result<Value, NoMem>
    ensures { IfOk result (λ v. view v ≡ hyp_data hyp.now) }
{
    match &hyp.value {
        None => plain_hyp(alloc, hyp.name.as_str(), hyp.ty.as_str()),
        Some(value) => defined_hyp(alloc, value.as_str(), hyp.name.as_str(), hyp.ty.as_str()),
    }
}

fn hyp_values(alloc: Global, hyps: &[HypView]) -> Result<Vec<Value>, NoMem>
    ensures { IfOk result (λ vs. map view vs.items ≡ map hyp_data hyps.now) }
{
    let mut values = Vec::new(alloc);
    for hyp in hyps {
        values.push(hyp_value(alloc, hyp)?)?;
    }
    Ok(values)
}

/// A goal.
fn goal_value(alloc: Global, goal: &GoalView) -> Result<Value, NoMem>
    ensures { IfOk result (λ v. view v ≡ goal_data goal.now) }
{
    let hyps = Value::Array(hyp_values(alloc, goal.hyps.as_slice())?);
    let ty = text_value(alloc, goal.ty.as_str())?;
    Ok(json!(in alloc; {"hyps": hyps, "ty": ty})?)
}

fn goal_values(alloc: Global, goals: &[GoalView]) -> Result<Vec<Value>, NoMem>
    ensures { IfOk result (λ vs. map view vs.items ≡ map goal_data goals.now) }
{
    let mut values = Vec::new(alloc);
    for goal in goals {
        values.push(goal_value(alloc, goal)?)?;
    }
    Ok(values)
}

/// Goals in order.
fn goal_list(alloc: Global, goals: &ViewList) -> Result<Value, NoMem>
    ensures { IfOk result (λ v. view v ≡ goal_list goals.now) }
{
    Ok(Value::Array(goal_values(alloc, goals.as_slice())?))
}

fn empty_value(alloc: Global) -> Value
    ensures { view result ≡ empty_array }
{
    Value::Array(Vec::new(alloc))
}

/// A level of focus.
fn level_value(alloc: Global, goals: &ViewList) -> Result<Value, NoMem>
    ensures { IfOk result (λ v. view v ≡ level_data goals.now) }
{
    let waiting = goal_list(alloc, goals)?;
    let mut sides = Vec::new(alloc);
    sides.push(empty_value(alloc))?;
    sides.push(waiting)?;
    Ok(Value::Array(sides))
}

fn level_values(alloc: Global, levels: &[ViewList]) -> Result<Vec<Value>, NoMem>
    ensures { IfOk result (λ vs. map view vs.items ≡ map level_data levels.now) }
{
    let mut values = Vec::new(alloc);
    for level in levels {
        values.push(level_value(alloc, level)?)?;
    }
    Ok(values)
}

/// The goals of a proof under way.
fn under_way(alloc: Global, goals: &GoalsView) -> Result<Value, NoMem>
    ensures { IfOk result (λ v. view v ≡ view_data goals.now) }
{
    let given_up = goal_list(alloc, &goals.given_up)?;
    let focused = goal_list(alloc, &goals.goals)?;
    let stack = Value::Array(level_values(alloc, goals.stack.as_slice())?);
    let mut members = Map::new(alloc);
    put(&mut members, alloc, "given_up", given_up)?;
    put(&mut members, alloc, "goals", focused)?;
    put(&mut members, alloc, "shelf", empty_value(alloc))?;
    put(&mut members, alloc, "stack", stack)?;
    Ok(Value::Object(members))
}

/// Goals as they are shown; null where no proof is under way.
pub fn view_value(alloc: Global, goals: Option<&GoalsView>) -> Result<Value, NoMem>
    ensures { IfOk result (λ v. view v ≡ goals_data (option_copied goals.entry)) }
{
    match goals {
        None => Ok(Value::Null),
        Some(goals) => under_way(alloc, goals),
    }
}

/// The answer that shows these goals.
fn answer_value(
    alloc: Global,
    goals: Option<&GoalsView>,
    uri: &str,
    version: i32,
    at: Position,
) -> Result<Value, NoMem>
    ensures { IfOk result (λ v. view v ≡ answer_data (option_copied goals.entry) at uri.now version) }
{
    let shown = view_value(alloc, goals)?;
    let position = position_value(alloc, at)?;
    let document = document_value(alloc, uri, version)?;
    let mut members = Map::new(alloc);
    put(&mut members, alloc, "goals", shown)?;
    put(&mut members, alloc, "position", position)?;
    put(&mut members, alloc, "textDocument", document)?;
    Ok(Value::Object(members))
}

/// The answer to a request for goals: those behind the first so many sentences of a text, with the position that was sent.
pub fn goals_value<P: Prover>(
    alloc: Global,
    check: &DocCheck<P>,
    prover: &P,
    uri: &str,
    version: i32,
    at: Position,
    sentences: usize,
) -> Result<Value, NoMem>
    requires { sentences ≤ done check.now }
    ensures { let goals = goals_behind P.means check.now.text sentences in
        IfOk result (λ v. view v ≡ answer_data goals at uri.now version) }
{
    let goals = check.goals(alloc, prover, sentences)?;
    answer_value(alloc, goals.as_ref(), uri, version, at)
}
