//! The outline of a state, as it is shown.
ghost use Rattle.std.specs.Prelude.{◌≡◌, length, IfOk};
ghost use Rattle.axiom_lists.specs.Lists.{axioms_before};
ghost use Rattle.cic_rules.specs.Environments.{type_of_global};
ghost use Rattle.term_print.specs.Show.{global_name, global_names};
ghost use Rattle.vernac_exec.specs.Outline.{statement_text, item, outline_of};

use crate::state::{ProverState, Row};
use axiom_lists::{AxiomList, axiom_lists, axioms_of};
use base_core::{NoMem, Text, TextList};
use cic_rules::{Context, GlobalEnv};
use prover_iface::{OutlineItem, OutlineList};
use std::alloc::Global;
use term_print::print_term;

impl ProverState {
    /// The declarations so far, as they are shown.
    pub fn outline(&self, alloc: Global) -> Result<OutlineList, NoMem>
        ensures { IfOk result (λ outline. outline ≡ outline_of self.now) }
    {
        let lists = axiom_lists(alloc, &self.state.env)?;
        let mut outline = OutlineList::new(alloc);
        for i in 0..self.state.outline.len() {
            let Some(row) = self.state.outline.get(i) else {
                unreachable!()
            };
            outline.push(item(alloc, &self.state.env, lists.as_slice(), row)?)?;
        }
        Ok(outline)
    }
}

/// A declaration with its name, its type, and the names of the axioms that it rests on.
fn item(
    alloc: Global,
    env: &GlobalEnv,
    lists: &[AxiomList],
    row: &Row,
) -> Result<OutlineItem, NoMem>
    requires { lists.now ≡ axioms_before env.now (length env.now) }
    ensures { IfOk result (λ shown. shown ≡ item env.now row.now) }
{
    let name = name_of(alloc, env, row.place)?;
    let statement = statement(alloc, env, row.place)?;
    let axioms = names_of(alloc, env, axioms_of(env, lists, row.place))?;
    Ok(OutlineItem {
        kind: row.kind,
        name,
        statement,
        axioms,
        first: row.first,
        last: row.last,
    })
}

/// The name of a global.
fn name_of(alloc: Global, env: &GlobalEnv, place: u32) -> Result<Text, NoMem>
    ensures { IfOk result (λ name. name ≡ global_name env.now place) }
{
    match env.get(place) {
        Some(entry) => entry.name.share(),
        None => Text::copy(alloc, ""),
    }
}

/// The type of a global, as it is printed.
fn statement(alloc: Global, env: &GlobalEnv, place: u32) -> Result<Text, NoMem>
    ensures { IfOk result (λ text. text ≡ statement_text env.now (type_of_global env.now place)) }
{
    match env.get(place) {
        Some(entry) => print_term(alloc, env, &Context::empty(), &entry.ty),
        None => Text::copy(alloc, ""),
    }
}

fn names_of(alloc: Global, env: &GlobalEnv, places: &[u32]) -> Result<TextList, NoMem>
    ensures { IfOk result (λ names. names ≡ global_names env.now places.now) }
{
    let mut names = TextList::new(alloc);
    for place in places {
        names.push(name_of(alloc, env, *place)?)?;
    }
    Ok(names)
}
