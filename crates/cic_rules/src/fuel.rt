//! Fuel: units of work, and how deep judgements stand in one another.
ghost use Rattle.std.specs.Prelude.{◌≡◌, ◌-◌, ◌≤◌, ◌<◌, ◌↔◌, IsTrue};
ghost use Rattle.cic_rules.specs.Fuel.{full, nested, left, calls_left, IsSpentOf, IsFuel, NESTING_LIMIT};

use std::marker::Model;

/// How many judgements may stand in one another.
const NESTING_LIMIT: u32 = 2000;

/// What is left of a sentence's units, and how deep the judgements stand in one another.
#[derive(Debug, Drop)]
pub struct Fuel {
    limit: u32,
    spent: u32,
    nesting: u32,
}

impl Model for Fuel {
    ghost use Rattle.cic_rules.specs.Fuel.{FuelState, fuel_code, IsFuel};

    ghost Value = { FuelState };

    ghost coded = { fuel_code };

    ghost view = { λ f. record { limit = f.limit; spent = f.spent; nesting = f.nesting } };

    ghost invariant = { λ f. IsFuel (record { limit = f.limit; spent = f.spent; nesting = f.nesting }) };
}

impl Fuel {
    /// So many units, none of them spent.
    pub fn new(limit: u32) -> Fuel
        ensures { result ≡ full limit }
    {
        Fuel {
            limit,
            spent: 0,
            nesting: 0,
        }
    }

    /// Takes units, where so many are left. Else it takes all that are left and answers false.
    pub fn spend(&mut self, n: u32) -> bool
        ensures enough { IsTrue result ↔ (n ≤ left self.old) }
        ensures left { left self.new ≡ left self.old - n }
        ensures kept { IsSpentOf self.old self.new }
    {
        if n > self.limit - self.spent {
            self.spent = self.limit;
            return false;
        }
        self.spent += n;
        true
    }

    /// How many units were spent.
    pub fn spent(&self) -> u32
        ensures count { result ≡ self.now.spent }
        ensures within { IsFuel self.now }
    {
        self.spent
    }

    /// How many more judgements may be begun inside those under way.
    pub fn calls_left(&self) -> u32
        ensures { result ≡ calls_left self.now }
    {
        NESTING_LIMIT - self.nesting
    }

    /// Begins a judgement inside those under way. Where the most that are allowed are under way,
    /// it answers false and changes nothing.
    pub fn enter(&mut self) -> bool
        ensures room { IsTrue result ↔ (self.old.nesting < NESTING_LIMIT) }
        ensures nesting { self.new ≡ nested result self.old }
    {
        if self.nesting == NESTING_LIMIT {
            return false;
        }
        self.nesting += 1;
        true
    }

    /// Ends the innermost judgement.
    pub fn leave(&mut self)
        requires { 1 ≤ self.old.nesting }
        ensures { self.new ≡ record self.old { nesting = self.old.nesting - 1 } }
    {
        self.nesting -= 1;
    }
}
