//! The names that an inductive type will have, as they are written.
ghost use Rattle.std.specs.Prelude.{◌≡◌, ◌++◌, is_some, IfOk, OnOk};
ghost use Rattle.std.specs.Ordering.{nat_cmp};
ghost use Rattle.std.specs.Cmp.Lexicographic.{slice_cmp};
ghost use Rattle.shared_map.specs.Entries.{look};
ghost use Rattle.coq_syntax.specs.Forms.{constructors_of};
ghost use Rattle.cic_rules.specs.Inductive.{has_twice, any_taken};
ghost use Rattle.vernac_exec.specs.Families.{written_names};
ghost use Rattle.vernac_exec.specs.Calls.{constructor_names};

use base_core::{NoMem, Text};
use cic_rules::GlobalEnv;
use coq_syntax::Constructor;
use shared_map::SharedMap;
use std::alloc::Global;

/// The names of the type, of its constructors and of its three eliminators.
pub(crate) fn written_names(
    alloc: Global,
    name: &Text,
    constructors: &[Constructor],
) -> Result<Vec<Text>, NoMem>
    ensures { IfOk result (λ names. names.items ≡ written_names name.now (constructors_of constructors.now)) }
{
    let mut names = Vec::new(alloc);
    names.push(name.share()?)?;
    add_constructors(constructors, &mut names)?;
    names.push(with_ending(alloc, name, "_ind")?)?;
    names.push(with_ending(alloc, name, "_rec")?)?;
    names.push(with_ending(alloc, name, "_rect")?)?;
    Ok(names)
}

fn add_constructors(constructors: &[Constructor], names: &mut Vec<Text>) -> Result<(), NoMem>
    ensures { OnOk result (names.new.items ≡ names.old.items ++ constructor_names constructors.now) }
{
    for constructor in constructors {
        names.push(constructor.name.text.share()?)?;
    }
    Ok(())
}

fn with_ending(alloc: Global, name: &Text, ending: &str) -> Result<Text, NoMem>
    ensures { IfOk result (λ whole. whole ≡ name.now ++ ending.now) }
{
    let mut whole = String::from_str(alloc, name.as_str())?;
    whole.push_str(ending)?;
    Text::from_string(alloc, whole)
}

/// Whether a name stands twice among these. The time is that of a search for each of them.
pub(crate) fn has_twice(alloc: Global, names: &[Text]) -> Result<bool, NoMem>
    ensures { IfOk result (λ twice. twice ≡ has_twice names.now) }
{
    let mut behind: SharedMap<Text, ()> = SharedMap::empty();
    let mut at = names.len();
    while at > 0 {
        at -= 1;
        let name = &names[at];
        if has(&behind, name) {
            return Ok(true);
        }
        behind = behind.with(alloc, name.share()?, ())?;
    }
    Ok(false)
}

fn has(index: &SharedMap<Text, ()>, name: &Text) -> bool
    ensures { result ≡ is_some (look (slice_cmp nat_cmp) index.now name.now) }
{
    index.get(name).is_some()
}

/// Whether a global has one of these names.
pub(crate) fn any_taken(env: &GlobalEnv, names: &[Text]) -> bool
    ensures { result ≡ any_taken env.now names.now }
{
    for name in names {
        if env.place_of(name).is_some() {
            return true;
        }
    }
    false
}
