//! The values of a pattern's variables.
ghost use Rattle.std.specs.Prelude.{◌≡◌, ◌<◌, length, None, Some, IfOk, MatchOption, slice_get, slice_set};
ghost use Rattle.matching.specs.Patterns.{unset_values, is_open, value_at, AreShallow};

use base_core::NoMem;
use core_term::Term;
use std::alloc::Global;
use std::marker::Model;

/// The values of a pattern's variables, the newest first. One that is unset has none.
#[derive(Drop)]
pub struct Values {
    items: Vec<Option<Term>>,
}

impl Model for Values {
    ghost use Rattle.std.specs.Prelude.{List, Option};
    ghost use Rattle.std.specs.Coded.{coded_list, coded_option};
    ghost use Rattle.core_term.specs.Tree.{Tree};
    ghost use Rattle.core_term.specs.TreeCode.{tree_code};

    ghost Value = { List (Option Tree) };

    ghost coded = { coded_list (coded_option tree_code) };

    ghost use Rattle.matching.specs.Patterns.{AreShallow};

    ghost view = { λ v. v.items.items };

    ghost invariant = { λ v. AreShallow v.items.items };
}

impl Values {
    /// So many variables, none of which has a value.
    #[tactic(auto, using(crate::proofs::Fillings::one_more, crate::proofs::Fillings::shallow_unset))]
    pub fn unset(alloc: Global, count: u32) -> Result<Values, NoMem>
        ensures { IfOk result (λ values. values ≡ unset_values count) }
    {
        let mut items = Vec::new(alloc);
        for _ in 0..count {
            items.push(None)?;
        }
        Ok(Values { items })
    }

    /// How many variables there are.
    pub fn len(&self) -> usize
        ensures count { result ≡ length self.now }
        ensures shallow { AreShallow self.now }
    {
        self.items.len()
    }

    /// The values, the newest first.
    pub fn as_slice(&self) -> &[Option<Term>]
        ensures { result.now ≡ self.now }
    {
        self.items.as_slice()
    }

    /// The value of the variable at a place, if it is set.
    pub fn get(&self, at: usize) -> Option<&Term>
        ensures { MatchOption result (value_at self.now at ≡ None) (λ v. value_at self.now at ≡ Some v.now) }
    {
        match self.items.get(at) {
            Some(Some(value)) => Some(value),
            _ => None,
        }
    }

    /// Whether the variable at a place has no value yet.
    pub(crate) fn is_unset(&self, at: usize) -> bool
        ensures { result ≡ is_open (slice_get self.now at) }
    {
        match self.items.get(at) {
            Some(None) => true,
            _ => false,
        }
    }

    /// The value of the variable at a place is set.
    #[tactic(auto, using(crate::proofs::Fillings::shallow_set))]
    pub(crate) fn set(&mut self, at: usize, value: Term)
        requires { at < length self.old }
        ensures { self.new ≡ slice_set self.old at (Some value) }
    {
        let _depth = value.depth();
        self.items[at] = Some(value);
    }
}
