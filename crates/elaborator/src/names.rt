//! What names mean.
ghost use Rattle.std.specs.Prelude.{◌≡◌, IfOk, codes};
ghost use Rattle.base_core.specs.Answers.{Gives};
ghost use Rattle.cic_rules.specs.Steps.{answer_of};
ghost use Rattle.elaborator.specs.Names.{bound_name, token, global, name as name_step, declared_type};

use crate::scope::Scope;
use base_core::refusal_codes::UNKNOWN_NAME;
use base_core::{NoMem, Place, Refusal, Stop, Text};
use cic_rules::GlobalEnv;
use coq_syntax::{BoundName, TokenPlace, Word};
use core_term::Term;
use std::alloc::Global;

/// A refusal at a token.
pub(crate) fn refusal(code: u16, place: TokenPlace) -> Stop
    ensures { result ≡ Stop.Refused (record { code = code; place = token place }) }
{
    Stop::Refused(Refusal {
        code,
        place: Place::Part {
            from: place.from,
            to: place.to,
        },
    })
}

/// The name that a binder gives, or `_`.
pub(crate) fn bound_name(alloc: Global, name: &BoundName) -> Result<Text, NoMem>
    ensures { IfOk result (λ text. text ≡ bound_name name.now) }
{
    match name {
        BoundName::Named(word) => word.text.share(),
        BoundName::Unnamed(_) => Text::copy(alloc, "_"),
    }
}

/// The global of a name, for what stands at a token; refused there with 40 where there is none.
pub(crate) fn global(
    alloc: Global,
    env: &GlobalEnv,
    name: &Text,
    place: TokenPlace,
) -> Result<Term, Stop>
    ensures { Gives result (answer_of (global env.now name.now place)) }
{
    match env.place_of(name) {
        Some(found) => Ok(Term::constant(alloc, found)?),
        None => Err(refusal(UNKNOWN_NAME, place)),
    }
}

/// The global of the prelude that an operator or a numeral means.
pub(crate) fn prelude(
    alloc: Global,
    env: &GlobalEnv,
    name: &str,
    place: TokenPlace,
) -> Result<Term, Stop>
    ensures { Gives result (answer_of (global env.now name.now place)) }
{
    let name = Text::copy(alloc, name)?;
    global(alloc, env, &name, place)
}

/// A name as a term: the newest hypothesis of that name, else the global.
pub(crate) fn name_term(
    alloc: Global,
    env: &GlobalEnv,
    scope: &Scope,
    word: &Word,
) -> Result<Term, Stop>
    ensures { Gives result (answer_of (name_step env.now scope.now word.now)) }
{
    match scope.find(&word.text) {
        Some(i) => Ok(Term::var(alloc, i)?),
        None => global(alloc, env, &word.text, word.place),
    }
}

/// The type with which a name was declared, as it was declared.
pub(crate) fn declared_type(
    env: &GlobalEnv,
    scope: &Scope,
    name: &Text,
) -> Result<Option<Term>, NoMem>
    ensures { IfOk result (λ ty. ty ≡ declared_type env.now scope.now name.now) }
{
    match scope.find(name) {
        Some(i) => match scope.context().get(i) {
            Some(hyp) => Ok(Some(hyp.ty.share()?)),
            None => Ok(None),
        },
        None => match env.place_of(name) {
            Some(place) => match env.get(place) {
                Some(entry) => Ok(Some(entry.ty.share()?)),
                None => Ok(None),
            },
            None => Ok(None),
        },
    }
}
