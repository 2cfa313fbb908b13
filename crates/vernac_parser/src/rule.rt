//! The rules that count as nested.

/// The rules that count as nested where they stand: a whole term, and the operand behind an operator unless it is an
/// open form.
#[derive(Clone, Copy, PartialEq, Eq)]
pub enum Rule {
    Whole,
    /// Behind `\/`.
    Right85,
    /// Behind `/\`.
    Right80,
    /// Behind `~`.
    Right75,
}
