//! A prover that counts sentences.
use base_core::{Kind, NoMem, Steps};
use prover_iface::{DiagList, GoalsView, Outcome, OutlineList, Prover};
use std::alloc::Global;
use std::cell::Cell;
use std::rc::Rc;
use std::sync::ledger::Ledger;

/// How many sentences were run.
#[derive(Drop)]
pub struct Count {
    sentences: u64,
}

/// A prover that counts sentences. Each costs 2 units, and nothing is told of it. It adds to a shared cell what it
/// works, whatever counter it is handed.
#[derive(Drop)]
pub struct CountProver {
    worked: Rc<Cell<u64>>,
}

impl CountProver {
    pub fn new(worked: Rc<Cell<u64>>) -> CountProver {
        CountProver { worked }
    }
}

impl Prover for CountProver {
    type State = Count;

    ghost use Rattle.std.specs.Prelude.{ℕ, ◌+◌, ◌-◌, ◌^◌, min, None, []};
    ghost use Rattle.std.proofs.Common.{arith};

    ghost Meaning = { ℕ };

    ghost meaning = { λ s. s.sentences };

    ghost means = { record {
      first = 0;
      first_cost = 0;
      after = λ m _. min (m + 1) (2 ^ 64 - 1);
      diagnosed = λ _ _. [];
      cost = λ _ _. 2;
      opened = λ _. None;
      goals_of = λ _. None;
      outline_of = λ _. [];
    } };

    ghost bounded = { λ _ _. Prim.omega arith };

    ghost placed = { λ _ _ _ _ _ _ _ h. absurd (Prim.omega arith) };

    ghost opened_before = { λ _. tt };

    ghost declared_before = { λ _ _ _ h. absurd (Prim.omega arith) };

    fn initial<C: Ledger>(&self, _alloc: Global, _steps: &mut Steps<C>) -> Result<Count, NoMem> {
        Ok(Count { sentences: 0 })
    }

    fn share(&self, state: &Count) -> Result<Count, NoMem> {
        Ok(Count {
            sentences: state.sentences,
        })
    }

    fn exec<C: Ledger>(
        &self,
        alloc: Global,
        state: &Count,
        _kind: Kind,
        _text: &str,
        units: u32,
        steps: &mut Steps<C>,
    ) -> Result<Outcome<Count>, NoMem> {
        let work = u64::from(units.min(2));
        steps.rise(work);
        self.worked.set(self.worked.get().saturating_add(work));
        if units < 2 {
            return Ok(Outcome::Interrupted);
        }
        Ok(Outcome::Done {
            state: Count {
                sentences: state.sentences.saturating_add(1),
            },
            diags: DiagList::new(alloc),
            cost: 2,
        })
    }

    fn left_open(&self, _state: &Count) -> Option<u32> {
        None
    }

    fn goals(&self, _alloc: Global, _state: &Count) -> Result<Option<GoalsView>, NoMem> {
        Ok(None)
    }

    fn outline(&self, alloc: Global, _state: &Count) -> Result<OutlineList, NoMem> {
        Ok(OutlineList::new(alloc))
    }
}
