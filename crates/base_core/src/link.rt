//! Where the program reads.
ghost use Rattle.std.specs.Prelude.{◌≡◌, ℕ, Option, List, ◌≤◌, ◌<◌, length};
ghost use Rattle.base_core.specs.Faults.{Rose};
ghost use Rattle.base_core.specs.Link.{Poll, TakenFrom, IsCalmPoll};

/// What a poll of a link answered.
#[derive(Clone, Copy, Debug, PartialEq, Eq)]
pub enum Taken {
    /// So many bytes stand at the front of the buffer, at least one.
    Got(usize),
    /// Nothing is there yet.
    Idle,
    /// Nothing more will come.
    End,
    Failed,
}

/// Where the program reads. A link may tell its polls; one that does not still counts its faults,
/// and that count never falls.
pub trait Link {
    /// All polls so far, where the link tells them. One that failed may be missing.
    ghost polls: { Self → Option (List Poll) };

    /// How often it has failed. At the end of its type the count stands still.
    ghost faults: { Self → ℕ };

    /// Takes what is there; with `wait`, only once something is.
    fn poll(&mut self, wait: bool, buf: &mut [u8]) -> Taken
        requires { 0 < length buf.old }
        ensures told { TakenFrom result wait buf.new (polls self.old) (polls self.new) }
        ensures later { faults self.old ≤ faults self.new }
        ensures failed { result ≡ Taken.Failed → Rose (faults self.old) (faults self.new) }
        ensures calm { IsCalmPoll result (faults self.old) (faults self.new) };
}
