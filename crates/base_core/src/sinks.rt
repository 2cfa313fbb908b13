//! Where the program writes.
ghost use Rattle.std.specs.Prelude.{◌≡◌, ℕ, Option, List, ◌≤◌, ◌<◌, length};
ghost use Rattle.base_core.specs.Faults.{Rose};
ghost use Rattle.base_core.specs.Sink.{TakesFrom, IsCalmPut};

/// What became of a piece that was offered to a sink.
#[derive(Clone, Copy, Debug, PartialEq, Eq)]
pub enum Put {
    /// So many of its first bytes were taken, at least one.
    Took(usize),
    Failed,
}

/// Where the program writes. A sink may tell what it was given; one that does not still counts its
/// faults, and that count never falls.
pub trait Sink {
    /// All bytes taken so far, where the sink tells them.
    ghost written: { Self → Option (List ℕ) };

    /// How often it has failed. At the end of its type the count stands still.
    ghost faults: { Self → ℕ };

    fn put(&mut self, piece: &[u8]) -> Put
        requires { 0 < length piece.now }
        ensures told { TakesFrom result piece.now (written self.old) (written self.new) }
        ensures later { faults self.old ≤ faults self.new }
        ensures failed { result ≡ Put.Failed → Rose (faults self.old) (faults self.new) }
        ensures calm { IsCalmPut result (faults self.old) (faults self.new) };
}
