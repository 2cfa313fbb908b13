//! The names that no new binder may have.
ghost use Rattle.std.specs.Prelude.{◌≡◌, suc, [], ◌∷◌, ◌++◌, ◌≤◌, slice_get, length, IfOk};
ghost use Rattle.std.specs.Option.{option_copied};
ghost use Rattle.term_print.specs.Freshness.{has_name, fresh, stem_of, candidate, first_free};
ghost use Rattle.term_print.specs.Scope.{AreTaken};

use base_core::{NoMem, Text};
use itoa::Buffer;
use shared_map::{SharedList, SharedMap};
use std::alloc::Global;
use std::marker::Model;

/// The names that no new binder may have, which contracts see as a list: those of the variables,
/// the newest first, then others. A change gives a new scope, and the old one stays.
/// For what names of binders begin with, a scope knows so many that are taken, so that a binder
/// under others of its name need not try them again.
#[derive(Drop)]
pub struct Scope {
    names: SharedList<Text>,
    index: SharedMap<Text, ()>,
    numbers: SharedMap<Text, usize>,
}

impl Model for Scope {
    ghost use Rattle.std.specs.Prelude.{ℕ, List};

    ghost Value = { List (List ℕ) };

    ghost view = { λ s. s.names };

    ghost use Rattle.term_print.specs.Scope.{IsIndex, AreNumbers};

    ghost invariant = { λ s. IsIndex s.index s.names × AreNumbers s.numbers s.names };
}

impl Scope {
    pub fn empty() -> Scope
        ensures { result ≡ [] }
    {
        Scope {
            names: SharedList::empty(),
            index: SharedMap::empty(),
            numbers: SharedMap::empty(),
        }
    }

    /// The scope with one more variable, the newest.
    #[tactic(auto, using(crate::proofs::ScopeLaws::index_first))]
    pub fn with_first(&self, alloc: Global, name: Text) -> Result<Scope, NoMem>
        ensures { IfOk result (λ s. s ≡ name ∷ self.now) }
    {
        let index = self.index.with(alloc, name.share()?, ())?;
        let names = self.names.with_first(alloc, name)?;
        let numbers = self.numbers.share()?;
        Ok(Scope {
            names,
            index,
            numbers,
        })
    }

    /// The scope with one more variable, which was given to a binder with a name of its own.
    pub fn with_binder(&self, alloc: Global, name: &Text, own: Text) -> Result<Scope, NoMem>
        ensures { IfOk result (λ s. s ≡ own ∷ self.now) }
    {
        if own.as_str() == "_" {
            return self.with_first(alloc, own);
        }
        let inner = self.with_first(alloc, own)?;
        inner.with_number(alloc, stem_of(alloc, name)?)
    }

    /// The scope that knows how many names of this stem are taken.
    #[tactic(auto)]
    fn with_number(&self, alloc: Global, stem: Text) -> Result<Scope, NoMem>
        ensures { IfOk result (λ s. s ≡ self.now) }
    {
        let number = next_number(alloc, self, &stem)?;
        let numbers = self.numbers.with(alloc, stem, number)?;
        let names = self.names.share()?;
        let index = self.index.share()?;
        Ok(Scope {
            names,
            index,
            numbers,
        })
    }

    /// So many names of a stem that are known to be taken, at most as many as there are names.
    #[tactic(auto)]
    fn known(&self, stem: &Text) -> usize
        ensures few { result ≤ length self.now }
        ensures taken { AreTaken self.now stem.now result }
    {
        match self.numbers.get(stem) {
            Some(number) if *number <= self.names.len() => *number,
            _ => 0,
        }
    }

    /// The scope with a name behind the others.
    #[tactic(auto, using(crate::proofs::ScopeLaws::index_last))]
    pub fn with_last(&self, alloc: Global, name: Text) -> Result<Scope, NoMem>
        ensures { IfOk result (λ s. s ≡ self.now ++ name ∷ []) }
    {
        let index = self.index.with(alloc, name.share()?, ())?;
        let names = self.names.with_last(alloc, name)?;
        let numbers = self.numbers.share()?;
        Ok(Scope {
            names,
            index,
            numbers,
        })
    }

    /// The name of a variable.
    pub fn get(&self, i: u32) -> Option<&Text>
        ensures { option_copied result ≡ slice_get self.now i }
    {
        self.names.get(i as usize)
    }

    pub fn len(&self) -> usize
        ensures { result ≡ length self.now }
    {
        self.names.len()
    }

    /// Whether the name is taken, in a time that is logarithmic in the number of names.
    pub fn has(&self, name: &Text) -> bool
        ensures { result ≡ has_name self.now name.now }
    {
        self.index.get(name).is_some()
    }

    /// The first name that is free for a binder with this name of its own.
    pub fn fresh(&self, alloc: Global, name: &Text) -> Result<Text, NoMem>
        ensures { IfOk result (λ free. free ≡ fresh self.now name.now) }
    {
        let stem = stem_of(alloc, name)?;
        let number = next_number(alloc, self, &stem)?;
        candidate(alloc, &stem, number)
    }
}

/// Which of the stem and the stem with a number behind it is the first that is free.
#[tactic(auto, using(crate::proofs::FreshLaws::is_taken, crate::proofs::FreshLaws::is_free, crate::proofs::FreshLaws::is_last, crate::proofs::FreshLaws::skip))]
fn next_number(alloc: Global, scope: &Scope, stem: &Text) -> Result<usize, NoMem>
    ensures first { IfOk result (λ n. candidate stem.now n ≡ first_free scope.now stem.now 0 (length scope.now)) }
    ensures taken { IfOk result (λ n. AreTaken scope.now stem.now n) }
{
    let count = scope.len();
    let known = scope.known(stem);
    for k in known..count {
        let name = candidate(alloc, stem, k)?;
        if !scope.has(&name) {
            return Ok(k);
        }
    }
    Ok(count)
}

/// The stem, or the stem with a number behind it.
fn candidate(alloc: Global, stem: &Text, k: usize) -> Result<Text, NoMem>
    ensures { IfOk result (λ name. name ≡ candidate stem.now k) }
{
    if k == 0 {
        return stem.share();
    }
    numbered(alloc, stem, k - 1)
}

/// What the names of a binder begin with.
pub(crate) fn stem_of(alloc: Global, name: &Text) -> Result<Text, NoMem>
    ensures { IfOk result (λ stem. stem ≡ stem_of name.now) }
{
    if name.as_str() == "_" {
        return Text::copy(alloc, "x");
    }
    name.share()
}

/// The stem with a number behind it.
fn numbered(alloc: Global, stem: &Text, k: usize) -> Result<Text, NoMem>
    ensures { IfOk result (λ name. name ≡ candidate stem.now (suc k)) }
{
    let mut text = String::from_str(alloc, stem.as_str())?;
    let mut buffer = Buffer::new();
    text.push_str(buffer.format(k))?;
    Text::from_string(alloc, text)
}
